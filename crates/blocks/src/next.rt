// The next key of a block.
ghost use Rattle.std.specs.Prelude.{◌≡◌, ◌≤◌, length, take};
ghost use Rattle.nodes.specs.Layout.{key_limit};
ghost use Rattle.blocks.specs.Answers.{next_outcome};
ghost use Rattle.blocks.specs.Read.{padded, next_key};

use crate::answer::{Answer, NextKey, Refusal};
use crate::key::is_over_long;
use crate::validate::judged;
use nodes::layout::KEY_LIMIT;
use trees::next_key::next_after;

// The 48 bytes of a key that stands in the first of them, zero past it.
#[tactic(auto, using(crate::proofs::NextSteps::key_size, crate::proofs::NextSteps::filled_padded))]
fn padded_key(bytes: [u8; KEY_LIMIT], size: usize) -> [u8; KEY_LIMIT]
    requires { size ≤ key_limit }
    ensures { (length (take size bytes) ≡ size) × (result ≡ padded (take size bytes)) }
{
    let mut key = bytes;
    key[size..].fill(0);
    key
}

// The least key that is greater than a given one.
#[tactic(auto, using(std::proofs::lemmas::Result::err_from_is_err_and, crate::proofs::RefusalSteps::refusal_number_lem, crate::proofs::NextSteps::next_refused, crate::proofs::NextSteps::next_over_long, crate::proofs::NextSteps::next_missing))]
pub fn next_key(block: &[u8], key: &[u8]) -> Answer<NextKey>
    ensures { next_key block.now key.now ≡ next_outcome result }
{
    let block = judged(block)?.block;
    if is_over_long(key) {
        return Err(Refusal::BadKey);
    }
    let mut next = [0u8; KEY_LIMIT];
    let told = next_after(&block.cells(), block.root_word(), key, &mut next);
    let size = told.ok_or(Refusal::Missing)?;
    Ok(NextKey {
        size,
        key: padded_key(next, size),
    })
}
