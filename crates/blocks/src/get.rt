// Look-up of a key in a block.
ghost use Rattle.std.specs.Prelude.{◌≡◌};
ghost use Rattle.blocks.specs.Answers.{found_outcome};
ghost use Rattle.blocks.specs.Read.{get};

use crate::answer::{Answer, Refusal};
use crate::key::is_bad_key;
use crate::validate::judged;
use trees::lookup::look_up;

// The value of a key.
#[tactic(auto, using(std::proofs::lemmas::Result::err_from_is_err_and, crate::proofs::RefusalSteps::refusal_number_lem, crate::proofs::ReadSteps::sound_grown, crate::proofs::ReadSteps::sound_shown, crate::proofs::GetSteps::get_refused, crate::proofs::GetSteps::get_bad_key, crate::proofs::GetSteps::get_ended))]
pub fn get(block: &[u8], key: &[u8]) -> Answer<u32>
    ensures { get block.now key.now ≡ found_outcome result }
{
    let block = judged(block)?.block;
    if is_bad_key(key) {
        return Err(Refusal::BadKey);
    }
    look_up(&block.cells(), block.root_word(), key).ok_or(Refusal::Missing)
}
