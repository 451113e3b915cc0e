// Sparse cells copied into the stage, with a child replaced or appended.
ghost use Rattle.std.specs.Prelude.{◌≡◌, true, ◌+◌, ◌-◌, ◌*◌, ◌≤◌, ◌<◌, length};
ghost use Rattle.cells.specs.Memory.{memory_of};
ghost use Rattle.nodes.specs.Sparse.{sparse_count, valid_sparse};
ghost use Rattle.staging.specs.NewCells.{without_characters, sparse_copy, replaced_cell, with_order, appended_cell};
ghost use Rattle.staging.specs.Code.Stage.{stage_cells, Put};

use crate::order::extended_order;
use crate::stage::{STAGE_SIZE, put_byte, put_copy, put_word_in};
use cells::cell;
use nodes::sparse::sparse_count;

// Sets the characters from a position on to zero: they belong to no child.
fn clear_characters(stage: &mut [u8; STAGE_SIZE], at: usize, from: usize)
    requires { at < stage_cells }
    ensures { Put stage.old stage.new at (without_characters (6 - from) from (memory_of stage.old at)) }
{
    for position in from..6 {
        put_byte(stage, at, 24 + position, 0);
    }
}

// A sparse cell's own bytes.
#[tactic(auto, using(cells::proofs::Memory::memory_length, crate::proofs::SparsePuts::put_sparse_law))]
fn put_sparse(stage: &mut [u8; STAGE_SIZE], at: usize, block: &[u8], number: usize)
    requires { (at < stage_cells) × (number * 32 + 32 ≤ length block.now) }
    ensures { Put stage.old stage.new at (sparse_copy (memory_of block.now number)) }
{
    let count = sparse_count(cell(block, number));
    put_copy(stage, at, block, number);
    clear_characters(stage, at, count);
}

// The copy with the child word at a position replaced.
#[tactic(auto, using(crate::proofs::CellPuts::put_word_over))]
pub fn put_replaced(
    stage: &mut [u8; STAGE_SIZE],
    at: usize,
    block: &[u8],
    number: usize,
    position: usize,
    word: u32,
)
    requires { (at < stage_cells) × (number * 32 + 32 ≤ length block.now) × (position < 8) }
    ensures { Put stage.old stage.new at (replaced_cell (memory_of block.now number) position word) }
{
    put_sparse(stage, at, block, number);
    put_word_in(stage, at, 4 * position, word);
}

// Writes an order word.
#[tactic(auto, using(crate::proofs::SparsePuts::put_order_law))]
pub fn put_order(stage: &mut [u8; STAGE_SIZE], at: usize, order: u16)
    requires { at < stage_cells }
    ensures { Put stage.old stage.new at (with_order (memory_of stage.old at) order) }
{
    put_byte(stage, at, 30, (order / 256 % 256) as u8);
    put_byte(stage, at, 31, (order % 256) as u8);
}

// The copy with a child appended at the first free position, and the order word extended.
#[tactic(auto, using(cells::proofs::Memory::memory_length, crate::proofs::SparsePuts::count_is))]
pub fn put_appended(
    stage: &mut [u8; STAGE_SIZE],
    at: usize,
    block: &[u8],
    number: usize,
    x: u8,
    word: u32,
)
    requires place { at < stage_cells }
    requires inside { number * 32 + 32 ≤ length block.now }
    requires valid { valid_sparse (memory_of block.now number) ≡ true }
    requires few { sparse_count (memory_of block.now number) < 6 }
    ensures { Put stage.old stage.new at (appended_cell (memory_of block.now number) x word) }
{
    let bytes = cell(block, number);
    let count = sparse_count(bytes);
    let order = extended_order(bytes, x);
    put_sparse(stage, at, block, number);
    put_word_in(stage, at, 4 * count, word);
    put_byte(stage, at, 24 + count, x);
    put_order(stage, at, order);
}
