// Insertion of a pair into a block.
ghost use Rattle.std.specs.Prelude.{◌≡◌};
ghost use Rattle.blocks.specs.Answers.{counted_outcome};
ghost use Rattle.blocks.specs.Trailer.{root_word};
ghost use Rattle.store.specs.Insert.{block_build, insert};
ghost use Rattle.store.specs.Code.Changeable.{Changeable, InStage};
ghost use Rattle.store.specs.Code.Judged.{Insertable, JudgedAs};

use crate::committing::commit_staged;
use crate::judging::judge_change;
use blocks::answer::{Answer, Refusal};
use nodes::layout::Layout;
use staging::stage::STAGE_CELLS;
use staging::task::{FreeCells, Task};
use updates::build::build;
use updates::built::{Build, nothing_built};

// The largest value.
const VALUE_LIMIT: u32 = 2147483647;

// What a change that is not refused so far goes on with; so many free cells are listed beside it.
#[derive(Clone, Copy)]
pub struct Ready {
    pub layout: Layout,
    pub free: usize,
    pub root: u32,
}

// Judges a block, a key and a value for an insertion and lists the free cells: the first of the answers 1 to 4, or what the
// insertion goes on with.
#[tactic(auto, using(crate::proofs::InsertRefused::insertion_judged))]
pub fn judge_insertion(
    block: &[u8],
    key: &[u8],
    value: u32,
    numbers: &mut [u16; STAGE_CELLS],
) -> Answer<Ready>
    ensures { JudgedAs block.now numbers.new key.now value result }
{
    let ready = judge_change(block, key, numbers)?;
    if VALUE_LIMIT < value {
        return Err(Refusal::BadValue);
    }
    Ok(ready)
}

// Builds an insertion in the stage and tells whether as many cells are free; the block is only read.
pub fn stage_insertion(task: &Task, so_far: &mut Build, key: &[u8], root: u32, value: u32) -> bool
    requires known { Changeable task.now.free.layout task.now.block.now task.now.free.numbers.now task.now.free.count key.now }
    requires root_is { root ≡ root_word task.now.free.layout task.now.block.now }
    ensures { InStage task.now.free.layout task.now.block.now (block_build task.now.block.now key.now value)
        so_far.new.made so_far.new.stage result }
{
    build(task, so_far, key, root, value);
    so_far.made.count <= task.free.count
}

// Inserts a valid pair into a sound block, if enough cells are free.
#[tactic(auto, using(crate::proofs::ChangeCode::build_fits, crate::proofs::InsertCode::insert_outcome))]
fn insert_valid(block: &mut [u8], free: FreeCells, root: u32, key: &[u8], value: u32) -> Answer<u32>
    requires { Insertable free.layout block.old free.numbers.now free.count key.now value root }
    ensures { insert block.old key.now value ≡ counted_outcome result block.new }
{
    let task = Task {
        free,
        block: &*block,
    };
    let mut so_far = nothing_built();
    let fits = stage_insertion(&task, &mut so_far, key, root, value);
    commit_staged(free.layout, block, free.numbers, &so_far, fits)
}

// Inserts a pair into a block and tells how many cells it allocated.
#[tactic(auto, using(crate::proofs::ChangeCode::build_numbered, crate::proofs::InsertRefused::insertion_refused))]
pub fn insert(block: &mut [u8], key: &[u8], value: u32) -> Answer<u32>
    ensures { insert block.old key.now value ≡ counted_outcome result block.new }
{
    let mut numbers = [0u16; STAGE_CELLS];
    let ready = judge_insertion(block, key, value, &mut numbers)?;
    let free = FreeCells {
        layout: ready.layout,
        numbers: &numbers,
        count: ready.free,
    };
    // Called at two places, so that the compiler keeps the stage out of this frame, which lies below the validation.
    if ready.root == 0 {
        return insert_valid(block, free, ready.root, key, value);
    }
    insert_valid(block, free, ready.root, key, value)
}
