// The stage: where the cells that one call allocates are written, one after the other.
ghost use Rattle.std.specs.Prelude.{◌≡◌, ◌+◌, ◌*◌, ◌≤◌, ◌<◌, length, replicate, set};
ghost use Rattle.cells.specs.Word.{with_word};
ghost use Rattle.cells.specs.Memory.{memory_of};
ghost use Rattle.cells.specs.Writes.{written, cell_writes};
ghost use Rattle.nodes.specs.Pointer.{word_to};
ghost use Rattle.staging.specs.NewCells.{blank};
ghost use Rattle.staging.specs.Code.Stage.{stage_cells, Put};

use cells::{put_word, word_at};
use nodes::layout::KEY_LIMIT;

// The most cells that one call allocates.
pub const STAGE_CELLS: usize = 4 * KEY_LIMIT + 10;

// The bytes of a stage.
pub const STAGE_SIZE: usize = 32 * STAGE_CELLS;

// What a build has made so far: the word of the new node, whether its cell is the newest, and how many cells are staged.
#[derive(Clone, Copy)]
pub struct BuildState {
    pub word: u32,
    pub own: bool,
    pub count: usize,
}

// Sets bytes to zero.
fn clear(bytes: &mut [u8])
    ensures { bytes.new ≡ replicate (length bytes.old) 0 }
{
    bytes.fill(0);
}

// Copies a cell of some bytes to a cell of others word by word, in the order of `cell_writes`, since a block is written in words.
pub fn copy_cell(bytes: &mut [u8], number: usize, source: &[u8], from: usize)
    requires { (number * 32 + 32 ≤ length bytes.old) × (from * 32 + 32 ≤ length source.now) }
    ensures { bytes.new ≡ written bytes.old (cell_writes number (memory_of source.now from)) }
{
    for i in 0..8 {
        let word = word_at(source, from * 32 + 4 * i);
        put_word(bytes, number * 32 + 4 * i, word);
    }
}

// Writes a byte of a cell of the stage.
pub fn put_byte(stage: &mut [u8; STAGE_SIZE], at: usize, offset: usize, value: u8)
    requires { (at < stage_cells) × (offset < 32) }
    ensures { Put stage.old stage.new at (set (memory_of stage.old at) offset value) }
{
    stage[at * 32 + offset] = value;
}

// Writes a word of a cell of the stage.
pub fn put_word_in(stage: &mut [u8; STAGE_SIZE], at: usize, offset: usize, word: u32)
    requires { (at < stage_cells) × (offset + 4 ≤ 32) }
    ensures { Put stage.old stage.new at (with_word (memory_of stage.old at) offset word) }
{
    put_word(stage, at * 32 + offset, word);
}

// Clears a cell of the stage.
pub fn put_blank(stage: &mut [u8; STAGE_SIZE], at: usize)
    requires { at < stage_cells }
    ensures { Put stage.old stage.new at blank }
{
    clear(&mut stage[at * 32..at * 32 + 32]);
}

// Copies a cell of the block to a cell of the stage; word by word, since a slice's copy is a call of memmove on some processors.
pub fn put_copy(stage: &mut [u8; STAGE_SIZE], at: usize, block: &[u8], number: usize)
    requires { (at < stage_cells) × (number * 32 + 32 ≤ length block.now) }
    ensures { Put stage.old stage.new at (memory_of block.now number) }
{
    copy_cell(stage, at, block, number);
}

// The word of a kind in a cell.
pub fn word_to(number: u16, kind: usize) -> u32
    requires { kind < 32 }
    ensures { result ≡ word_to number kind }
{
    (number as u32) * 32 + (kind as u32)
}
