// What every change of a block begins with.
ghost use Rattle.store.specs.Code.Judged.{ChangeJudged};

use crate::free_cells::free_list;
use crate::inserting::Ready;
use blocks::answer::{Answer, Refusal};
use blocks::block::Block;
use blocks::key::is_bad_key;
use staging::stage::STAGE_CELLS;

// Judges a block and a key for a change and lists the free cells: the first of the answers 1 to 3, or what the change goes on with.
#[tactic(auto, using(crate::proofs::InsertRefused::change_judged))]
pub fn judge_change(block: &[u8], key: &[u8], numbers: &mut [u16; STAGE_CELLS]) -> Answer<Ready>
    ensures { ChangeJudged block.now numbers.new key.now result }
{
    let block = Block::try_from(block)?;
    let free = free_list(&block, numbers)?;
    if is_bad_key(key) {
        return Err(Refusal::BadKey);
    }
    Ok(Ready {
        layout: block.layout,
        free,
        root: block.root_word(),
    })
}
