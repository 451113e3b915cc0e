// Removal of a key from a block.
ghost use Rattle.std.specs.Prelude.{◌≡◌, ◌≢◌, false};
ghost use Rattle.std.proofs.Math.Option.{none};
ghost use Rattle.blocks.specs.Answers.{counted_outcome};
ghost use Rattle.blocks.specs.Read.{shown};
ghost use Rattle.blocks.specs.Refusal.{bad_key};
ghost use Rattle.blocks.specs.Trailer.{root_word};
ghost use Rattle.store.specs.Remove.{block_removal, remove};
ghost use Rattle.store.specs.Code.Changeable.{Changeable, InStage};

use crate::committing::commit_staged;
use crate::judging::judge_change;
use blocks::answer::{Answer, Refusal};
use nodes::memory::Cells;
use removals::removal::removal;
use staging::stage::STAGE_CELLS;
use staging::task::{FreeCells, Task};
use trees::lookup::look_up;
use updates::built::{Build, nothing_built};

// Builds a removal in the stage and tells whether as many cells are free; the block is only read.
fn stage_removal(task: &Task, so_far: &mut Build, key: &[u8], root: u32) -> bool
    requires known { Changeable task.now.free.layout task.now.block.now task.now.free.numbers.now task.now.free.count key.now }
    requires root_is { root ≡ root_word task.now.free.layout task.now.block.now }
    ensures { InStage task.now.free.layout task.now.block.now (block_removal task.now.block.now key.now)
        so_far.new.made so_far.new.stage result }
{
    removal(task, so_far, key, root);
    so_far.made.count <= task.free.count
}

// Removes a key that is shown from a sound block, if enough cells are free.
// No one function with insert_valid: the clauses over the build as a closure are longer than the four lines that both have.
#[tactic(auto, using(crate::proofs::ChangeCode::build_fits, crate::proofs::RemoveCode::remove_outcome))]
fn remove_valid(block: &mut [u8], free: FreeCells, root: u32, key: &[u8]) -> Answer<u32>
    requires known { Changeable free.layout block.old free.numbers.now free.count key.now }
    requires root_is { root ≡ root_word free.layout block.old }
    requires good { bad_key key.now ≡ false }
    requires there { shown block.old key.now ≢ none }
    ensures { remove block.old key.now ≡ counted_outcome result block.new }
{
    let task = Task {
        free,
        block: &*block,
    };
    let mut so_far = nothing_built();
    let fits = stage_removal(&task, &mut so_far, key, root);
    commit_staged(free.layout, block, free.numbers, &so_far, fits)
}

// Removes a key from a block and tells how many cells that allocated.
#[tactic(auto, using(crate::proofs::RemoveRefused::removal_judged))]
pub fn remove(block: &mut [u8], key: &[u8]) -> Answer<u32>
    ensures { remove block.old key.now ≡ counted_outcome result block.new }
{
    let mut numbers = [0u16; STAGE_CELLS];
    let ready = judge_change(block, key, &mut numbers)?;
    let free = FreeCells {
        layout: ready.layout,
        numbers: &numbers,
        count: ready.free,
    };
    let cells = Cells {
        layout: ready.layout,
        bytes: &*block,
    };
    look_up(&cells, ready.root, key).ok_or(Refusal::Missing)?;
    // Called at two places, so that the compiler keeps the stage out of this frame, which lies below the validation.
    if ready.free == 0 {
        return remove_valid(block, free, ready.root, key);
    }
    remove_valid(block, free, ready.root, key)
}
