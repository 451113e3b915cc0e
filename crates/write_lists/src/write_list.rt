// An insertion as a list of stores for a memory driver.
ghost use Rattle.std.specs.Prelude.{◌≡◌};
ghost use Rattle.store.specs.Code.Judged.{Insertable};
ghost use Rattle.write_lists.specs.Answers.{list_outcome};
ghost use Rattle.write_lists.specs.WriteList.{write_list};

use crate::listing::list_staged;
use blocks::answer::Answer;
use staging::stage::STAGE_CELLS;
use staging::task::{FreeCells, Task};
use store::inserting::{judge_insertion, stage_insertion};
use updates::built::nothing_built;

// Lists the insertion of a valid pair into a sound block, if enough cells are free and the list has room.
#[tactic(auto, using(store::proofs::ChangeCode::build_fits, crate::proofs::ListCode::list_outcome_lem))]
fn list_valid(
    block: &[u8],
    free: FreeCells,
    root: u32,
    key: &[u8],
    value: u32,
    list: &mut [u8],
) -> Answer<u32>
    requires { Insertable free.layout block.now free.numbers.now free.count key.now value root }
    ensures { write_list block.now key.now value list.old ≡ list_outcome result list.new }
{
    let task = Task { free, block };
    let mut so_far = nothing_built();
    let fits = stage_insertion(&task, &mut so_far, key, root, value);
    list_staged(free.layout, list, free.numbers, &so_far, fits)
}

// Writes the list of an insertion's stores into a buffer, in the order in which a driver is to make them, and tells how many
// records it has; the block is only read.
#[tactic(auto, using(store::proofs::ChangeCode::build_numbered, crate::proofs::ListCode::list_refused))]
pub fn write_list(block: &[u8], key: &[u8], value: u32, list: &mut [u8]) -> Answer<u32>
    ensures { write_list block.now key.now value list.old ≡ list_outcome result list.new }
{
    let mut numbers = [0u16; STAGE_CELLS];
    let ready = judge_insertion(block, key, value, &mut numbers)?;
    let free = FreeCells {
        layout: ready.layout,
        numbers: &numbers,
        count: ready.free,
    };
    // Called at two places, so that the compiler keeps the stage out of this frame, which lies below the validation.
    if ready.root == 0 {
        return list_valid(block, free, ready.root, key, value, list);
    }
    list_valid(block, free, ready.root, key, value, list)
}
