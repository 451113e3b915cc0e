// A split made of the children of a sparse cell and one more: each mid's ends in rising order, then that mid, the head last.
ghost use Rattle.std.specs.Prelude.{◌≡◌, ◌==◌, ◌+◌, ◌≤◌, ◌<◌, not, length, get_or};
ghost use Rattle.std.specs.List.{list_any};
ghost use Rattle.nodes.specs.Sparse.{sparse_child};
ghost use Rattle.staging.specs.Code.Building.{numbering};
ghost use Rattle.updates.specs.Code.Made.{built, cells_of};
ghost use Rattle.updates.specs.Code.Staged.{Fitting, Rowed, RowFitting, Words};
ghost use Rattle.updates.specs.SetChild.{with_child};
ghost use Rattle.updates.specs.SplitBuild.{branch_row, mid_row, split_of};

use crate::built::Build;
use cells::Cell;
use nodes::sparse::sparse_child;
use staging::new_cells::put_words;
use staging::task::FreeCells;

// Whether one of some words is a pointer.
fn some_of(words: &[u32]) -> bool
    ensures { result ≡ list_any (λ word. not (word == 0)) words.now }
{
    words.iter().any(|&word| word != 0)
}

// A cell of eight words if one of them is a pointer; tells its word, NONE where all of them are.
pub fn branch_row(free: &FreeCells, so_far: &mut Build, words: &[u32]) -> u32
    requires size { length words.now ≡ 8 }
    requires room { RowFitting (branch_row (numbering free.now) (λ k. get_or words.now k 0) (cells_of so_far.old)) }
    ensures { Rowed (branch_row (numbering free.now) (λ k. get_or words.now k 0) (cells_of so_far.old)) result (cells_of so_far.new) }
{
    if !some_of(words) {
        return 0;
    }
    let count = so_far.made.count;
    put_words(&mut so_far.stage, count, words, 0);
    so_far.made = free.allocated_as(28, count);
    so_far.made.word
}

// The child word of a character, with that of one character replaced.
#[tactic(auto, using(crate::proofs::Stage::StagedSparse::with_here, crate::proofs::Stage::StagedSparse::with_other))]
fn child_with(cell: &Cell, x: u8, word: u32, y: u8) -> u32
    ensures { result ≡ with_child (sparse_child cell.now) x word y }
{
    if y == x {
        return word;
    }
    sparse_child(cell, y)
}

// The child words of eight characters from one on.
fn eight_children(cell: &Cell, x: u8, word: u32, from: usize) -> [u32; 8]
    requires { from + 8 ≤ 256 }
    ensures size { length result ≡ 8 }
    ensures words { Words result (with_child (sparse_child cell.now) x word) from }
{
    let mut words = [0u32; 8];
    for k in 0..8 {
        words[k] = child_with(cell, x, word, (from + k) as u8);
    }
    words
}

// The ends of the characters with these two upper bits, then their mid; tells the mid's word.
fn mid_row(free: &FreeCells, so_far: &mut Build, cell: &Cell, x: u8, word: u32, i: usize) -> u32
    requires index { i < 4 }
    requires room { RowFitting (mid_row (numbering free.now) (with_child (sparse_child cell.now) x word) i (cells_of so_far.old)) }
    ensures { Rowed (mid_row (numbering free.now) (with_child (sparse_child cell.now) x word) i (cells_of so_far.old)) result (cells_of so_far.new) }
{
    let mut ends = [0u32; 8];
    for j in 0..8 {
        let words = eight_children(cell, x, word, 64 * i + 8 * j);
        ends[j] = branch_row(free, so_far, &words);
    }
    branch_row(free, so_far, &ends)
}

// The four mids, then the head.
pub fn split_of(free: &FreeCells, so_far: &mut Build, cell: &Cell, x: u8)
    requires { Fitting (split_of (numbering free.now) (with_child (sparse_child cell.now) x so_far.old.made.word) (cells_of so_far.old)) }
    ensures { built so_far.new
        ≡ split_of (numbering free.now) (with_child (sparse_child cell.now) x so_far.old.made.word) (cells_of so_far.old) }
{
    let word = so_far.made.word;
    let mut mids = [0u32; 4];
    for i in 0..4 {
        mids[i] = mid_row(free, so_far, cell, x, word, i);
    }
    let count = so_far.made.count;
    put_words(&mut so_far.stage, count, &mids, 4);
    so_far.made = free.allocated_as(28, count);
}
