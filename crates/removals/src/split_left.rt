// A split without one of its children: the end and the mid above it anew where they hold a pointer still, the head always.
ghost use Rattle.std.specs.Prelude.{◌≡◌, List, ℕ, ◌+◌, ◌*◌, ◌/◌, ◌≤◌, ◌<◌, length};
ghost use Rattle.std.proofs.Math.Option.{some};
ghost use Rattle.cells.specs.Memory.{memory_of};
ghost use Rattle.nodes.specs.Split.{word_below, head_cells};
ghost use Rattle.removals.specs.SplitLeft.{split_left};
ghost use Rattle.staging.specs.Code.Building.{numbering, memory};
ghost use Rattle.updates.specs.Code.Made.{built, cells_of};
ghost use Rattle.updates.specs.Code.Staged.{Fitting, Rowed, RowFitting, Words};
ghost use Rattle.updates.specs.SetChild.{with_child};
ghost use Rattle.updates.specs.SplitBuild.{branch_row};

use cells::word_at;
use staging::task::{FreeCells, Task};
use updates::built::Build;
use updates::rows::branch_row;
use updates::split::{head_set, word_below};

// The eight words of the mid or end that a word names, with one of them replaced.
fn words_left(block: &[u8], word: u32, i: usize, value: u32) -> [u32; 8]
    requires { (word / 32 * 32 + 32 ≤ length block.now) × (i < 8) }
    ensures size { length result ≡ 8 }
    ensures words { Words result (with_child (word_below (memory_of block.now) word) i value) 0 }
{
    let mut words = [0u32; 8];
    for k in 0..8 {
        words[k] = word_below(block, word, k);
    }
    words[i] = value;
    words
}

// A mid or end with one of its words replaced, in a new cell if it holds a pointer still; tells the cell's word.
fn branch_left(
    free: &FreeCells,
    block: &[u8],
    so_far: &mut Build,
    word: u32,
    i: usize,
    value: u32,
) -> u32
    requires inside { word / 32 * 32 + 32 ≤ length block.now }
    requires index { i < 8 }
    requires room { RowFitting (branch_row (numbering free.now) (with_child (word_below (memory_of block.now) word) i value) (cells_of so_far.old)) }
    ensures { Rowed (branch_row (numbering free.now) (with_child (word_below (memory_of block.now) word) i value) (cells_of so_far.old)) result (cells_of so_far.new) }
{
    let words = words_left(block, word, i, value);
    branch_row(free, so_far, &words)
}

// The end without the child, then the mid over it, then the head over that.
pub fn split_left(task: &Task, so_far: &mut Build, number: usize, x: u8)
    requires inside { number < task.now.free.layout.cells }
    requires valid { (cs : List ℕ) × (head_cells task.now.free.layout (memory task.now) number ≡ some cs) }
    requires room { Fitting (split_left (numbering task.now.free) (memory task.now) number x (cells_of so_far.old)) }
    ensures { built so_far.new ≡ split_left (numbering task.now.free) (memory task.now) number x (cells_of so_far.old) }
{
    let free = &task.free;
    let block = task.block;
    let high = (x / 64) as usize;
    let middle = (x / 8 % 8) as usize;
    let low = (x % 8) as usize;
    let mid = word_at(block, number * 32 + (16 + 4 * high));
    let end = word_below(block, mid, middle);
    let ended = branch_left(free, block, so_far, end, low, 0);
    let above = branch_left(free, block, so_far, mid, middle, ended);
    so_far.made.word = above;
    head_set(free, block, so_far, number, high);
}
