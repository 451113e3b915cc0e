// A child of a split: new end, mid and head, copied from the old where there are any.
ghost use Rattle.std.specs.Prelude.{◌≡◌, List, ℕ, ◌+◌, ◌*◌, ◌/◌, ◌≤◌, ◌<◌, length};
ghost use Rattle.std.proofs.Math.Option.{some};
ghost use Rattle.cells.specs.Word.{with_word};
ghost use Rattle.cells.specs.Memory.{memory_of};
ghost use Rattle.nodes.specs.Split.{word_below, head_cells};
ghost use Rattle.staging.specs.Code.Building.{numbering, memory};
ghost use Rattle.staging.specs.Code.Stage.{stage_cells};
ghost use Rattle.staging.specs.NewCells.{branch_copy, head_copy};
ghost use Rattle.updates.specs.Built.{allocate};
ghost use Rattle.updates.specs.Code.Made.{built, cells_of};
ghost use Rattle.updates.specs.Code.Staged.{Fitting};
ghost use Rattle.updates.specs.SplitBuild.{split_copied};

use crate::built::Build;
use cells::word_at;
use staging::new_cells::{put_branch_copy, put_head_copy};
use staging::task::{FreeCells, Task};

// A word of the mid or end that a word names, NONE where that is NONE.
#[tactic(auto, using(crate::proofs::Stage::StagedSplits::below_none, crate::proofs::Stage::StagedSplits::below_some))]
pub fn word_below(block: &[u8], word: u32, i: usize) -> u32
    requires { (word / 32 * 32 + 32 ≤ length block.now) × (i < 8) }
    ensures { result ≡ word_below (memory_of block.now) word i }
{
    if word == 0 {
        return 0;
    }
    let number = (word / 32) as usize;
    word_at(block, number * 32 + 4 * i)
}

// A mid or end copied to a new cell, with one word replaced by that of what is built.
#[tactic(auto, using(crate::proofs::Stage::StagedCell::put_allocate))]
fn branch_set(free: &FreeCells, block: &[u8], so_far: &mut Build, word: u32, i: usize)
    requires inside { word / 32 * 32 + 32 ≤ length block.now }
    requires index { i < 8 }
    requires room { so_far.old.made.count < stage_cells }
    ensures { built so_far.new
        ≡ allocate (numbering free.now) 28 (with_word (branch_copy (memory_of block.now) word) (4 * i) so_far.old.made.word) (cells_of so_far.old) }
{
    let made = so_far.made;
    put_branch_copy(&mut so_far.stage, made.count, block, word, i, made.word);
    so_far.made = free.allocated_as(28, made.count);
}

// A head copied to a new cell, with one word replaced by that of what is built.
#[tactic(auto, using(crate::proofs::Stage::StagedCell::put_allocate))]
pub fn head_set(free: &FreeCells, block: &[u8], so_far: &mut Build, number: usize, i: usize)
    requires inside { number * 32 + 32 ≤ length block.now }
    requires index { i < 4 }
    requires room { so_far.old.made.count < stage_cells }
    ensures { built so_far.new
        ≡ allocate (numbering free.now) 28 (with_word (head_copy (memory_of block.now number)) (16 + 4 * i) so_far.old.made.word) (cells_of so_far.old) }
{
    let made = so_far.made;
    put_head_copy(&mut so_far.stage, made.count, block, number, i, made.word);
    so_far.made = free.allocated_as(28, made.count);
}

// The new end, then the mid over it, then the head over that.
pub fn split_set(task: &Task, so_far: &mut Build, number: usize, x: u8)
    requires inside { number < task.now.free.layout.cells }
    requires valid { (cs : List ℕ) × (head_cells task.now.free.layout (memory task.now) number ≡ some cs) }
    requires room { Fitting (split_copied (numbering task.now.free) (memory task.now) number x (built so_far.old)) }
    ensures { built so_far.new ≡ split_copied (numbering task.now.free) (memory task.now) number x (built so_far.old) }
{
    let free = &task.free;
    let block = task.block;
    let high = (x / 64) as usize;
    let middle = (x / 8 % 8) as usize;
    let low = (x % 8) as usize;
    let mid = word_at(block, number * 32 + (16 + 4 * high));
    let end = word_below(block, mid, middle);
    branch_set(free, block, so_far, end, low);
    branch_set(free, block, so_far, mid, middle);
    head_set(free, block, so_far, number, high);
}
