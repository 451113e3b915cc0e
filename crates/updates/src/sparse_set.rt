// A child of a sparse cell: replaced, appended, or as the seventh in a split.
ghost use Rattle.std.specs.Prelude.{◌≡◌, true, ◌+◌, ◌*◌, ◌≤◌, length};
ghost use Rattle.cells.specs.Memory.{memory_of};
ghost use Rattle.nodes.specs.Sparse.{sparse_count, position_of, valid_sparse};
ghost use Rattle.staging.specs.Code.Building.{numbering};
ghost use Rattle.updates.specs.Code.Made.{built};
ghost use Rattle.updates.specs.Code.Staged.{Fitting, FoundAt};
ghost use Rattle.updates.specs.SetChild.{sparse_set};

use crate::built::Build;
use crate::rows::split_of;
use cells::{Cell, cell};
use nodes::sparse::sparse_count;
use staging::sparse::{put_appended, put_replaced};
use staging::task::FreeCells;

// The position of a character among the children of a sparse cell.
fn position_of(cell: &Cell, x: u8) -> Option<usize>
    ensures { FoundAt (position_of cell.now (sparse_count cell.now) 0 x) (sparse_count cell.now) result }
{
    for position in 0..sparse_count(cell) {
        if x == cell[24 + position] {
            return Some(position);
        }
    }
    None
}

// A copy with the child in it, or a split where the cell is full.
#[tactic(auto, using(crate::proofs::Stage::StagedSparse::sparse_ways))]
pub fn sparse_set(free: &FreeCells, block: &[u8], so_far: &mut Build, number: usize, x: u8)
    requires inside { number * 32 + 32 ≤ length block.now }
    requires valid { valid_sparse (memory_of block.now number) ≡ true }
    requires room { Fitting (sparse_set (numbering free.now) (memory_of block.now number) x (built so_far.old)) }
    ensures { built so_far.new ≡ sparse_set (numbering free.now) (memory_of block.now number) x (built so_far.old) }
{
    let word = so_far.made.word;
    let count = so_far.made.count;
    let bytes = cell(block, number);
    match position_of(bytes, x) {
        Some(position) => {
            put_replaced(&mut so_far.stage, count, block, number, position, word);
            so_far.made = free.allocated_as(30, count);
        }
        None if sparse_count(bytes) < 6 => {
            put_appended(&mut so_far.stage, count, block, number, x, word);
            so_far.made = free.allocated_as(30, count);
        }
        None => split_of(free, so_far, bytes, x),
    }
}
