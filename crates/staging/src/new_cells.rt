// The cells that a call allocates, each written whole into the stage; meaningless bytes are zero.
ghost use Rattle.std.specs.Prelude.{◌+◌, ◌-◌, ◌*◌, ◌/◌, ◌≤◌, ◌<◌, length, get_or};
ghost use Rattle.cells.specs.Word.{word_at, with_word};
ghost use Rattle.cells.specs.Memory.{memory_of};
ghost use Rattle.staging.specs.NewCells.{blank, chain_cell, prefix_cell, with_prefix, pair_cell, sparse_pair, branch_copy, head_copy, with_words};
ghost use Rattle.staging.specs.Code.Stage.{stage_cells, Put};

use crate::stage::{STAGE_SIZE, put_blank, put_byte, put_copy, put_word_in};
use cells::word_at;

// A chain of one character, at the end of its cell.
#[tactic(auto, using(crate::proofs::CellPuts::put_chain_law))]
pub fn put_chain(stage: &mut [u8; STAGE_SIZE], at: usize, x: u8, word: u32)
    requires { at < stage_cells }
    ensures { Put stage.old stage.new at (chain_cell x word) }
{
    put_blank(stage, at);
    put_word_in(stage, at, 28, word);
    put_byte(stage, at, 27, x);
}

// A standalone prefix.
#[tactic(auto, using(crate::proofs::CellPuts::put_prefix_law))]
pub fn put_prefix(stage: &mut [u8; STAGE_SIZE], at: usize, value: u32, word: u32)
    requires { at < stage_cells }
    ensures { Put stage.old stage.new at (prefix_cell value word) }
{
    put_blank(stage, at);
    put_word_in(stage, at, 0, value);
    put_word_in(stage, at, 28, word);
    put_byte(stage, at, 4, 255);
}

// A value before the node of a cell that is in the stage, and the node's offset.
#[tactic(auto, using(crate::proofs::CellPuts::put_embedded_law))]
pub fn put_embedded(stage: &mut [u8; STAGE_SIZE], at: usize, value: u32, offset: u8)
    requires { at < stage_cells }
    ensures { Put stage.old stage.new at (with_prefix (memory_of stage.old at) value offset) }
{
    put_word_in(stage, at, 0, value);
    put_byte(stage, at, 4, offset);
}

// Two children, the lower character first.
fn put_rising_pair(stage: &mut [u8; STAGE_SIZE], at: usize, x: u8, word: u32, y: u8, other: u32)
    requires { at < stage_cells }
    ensures { Put stage.old stage.new at (pair_cell x word y other) }
{
    put_blank(stage, at);
    put_word_in(stage, at, 0, word);
    put_word_in(stage, at, 4, other);
    put_byte(stage, at, 24, x);
    put_byte(stage, at, 25, y);
    put_byte(stage, at, 31, 6);
}

// Two children in rising order.
#[tactic(auto, using(crate::proofs::CellPuts::put_pair_below, crate::proofs::CellPuts::put_pair_above))]
pub fn put_pair(stage: &mut [u8; STAGE_SIZE], at: usize, x: u8, word: u32, y: u8, other: u32)
    requires { at < stage_cells }
    ensures { Put stage.old stage.new at (sparse_pair x word y other) }
{
    if x < y {
        put_rising_pair(stage, at, x, word, y, other);
        return;
    }
    put_rising_pair(stage, at, y, other, x, word);
}

// The eight words of the mid or end that a word names, all NONE where that is NONE.
#[tactic(auto, using(crate::proofs::CellPuts::put_branch_none, crate::proofs::CellPuts::put_branch_some))]
fn put_branch(stage: &mut [u8; STAGE_SIZE], at: usize, block: &[u8], word: u32)
    requires { (at < stage_cells) × (word / 32 * 32 + 32 ≤ length block.now) }
    ensures { Put stage.old stage.new at (branch_copy (memory_of block.now) word) }
{
    if word == 0 {
        put_blank(stage, at);
        return;
    }
    put_copy(stage, at, block, (word / 32) as usize);
}

// The same with one of them replaced.
#[tactic(auto, using(crate::proofs::CellPuts::put_word_over))]
pub fn put_branch_copy(
    stage: &mut [u8; STAGE_SIZE],
    at: usize,
    block: &[u8],
    word: u32,
    i: usize,
    value: u32,
)
    requires { (at < stage_cells) × (word / 32 * 32 + 32 ≤ length block.now) × (i < 8) }
    ensures { Put stage.old stage.new at (with_word (branch_copy (memory_of block.now) word) (4 * i) value) }
{
    put_branch(stage, at, block, word);
    put_word_in(stage, at, 4 * i, value);
}

// A word of a cell of the block, at the same byte of a cell of the stage.
#[tactic(auto, using(crate::proofs::CellPuts::put_same_law))]
fn put_same_word(stage: &mut [u8; STAGE_SIZE], at: usize, block: &[u8], cell: usize, offset: usize)
    requires { (at < stage_cells) × (cell * 32 + 32 ≤ length block.now) × (offset + 4 ≤ 32) }
    ensures { Put stage.old stage.new at (with_word (memory_of stage.old at) offset (word_at (memory_of block.now cell) offset)) }
{
    let word = word_at(block, cell * 32 + offset);
    put_word_in(stage, at, offset, word);
}

// The four words of a split head.
fn put_head(stage: &mut [u8; STAGE_SIZE], at: usize, block: &[u8], cell: usize)
    requires { (at < stage_cells) × (cell * 32 + 32 ≤ length block.now) }
    ensures { Put stage.old stage.new at (head_copy (memory_of block.now cell)) }
{
    put_blank(stage, at);
    put_same_word(stage, at, block, cell, 16);
    put_same_word(stage, at, block, cell, 20);
    put_same_word(stage, at, block, cell, 24);
    put_same_word(stage, at, block, cell, 28);
}

// The same with one of them replaced.
#[tactic(auto, using(crate::proofs::CellPuts::put_word_over))]
pub fn put_head_copy(
    stage: &mut [u8; STAGE_SIZE],
    at: usize,
    block: &[u8],
    cell: usize,
    i: usize,
    value: u32,
)
    requires { (at < stage_cells) × (cell * 32 + 32 ≤ length block.now) × (i < 4) }
    ensures { Put stage.old stage.new at (with_word (head_copy (memory_of block.now cell)) (16 + 4 * i) value) }
{
    put_head(stage, at, block, cell);
    put_word_in(stage, at, 16 + 4 * i, value);
}

// Words side by side from a word position on, over zero bytes.
pub fn put_words(stage: &mut [u8; STAGE_SIZE], at: usize, words: &[u32], position: usize)
    requires place { at < stage_cells }
    requires inside { position + length words.now ≤ 8 }
    ensures { Put stage.old stage.new at (with_words (λ p. get_or words.now (p - position) 0) (length words.now) position blank) }
{
    put_blank(stage, at);
    for (k, &word) in words.iter().enumerate() {
        put_word_in(stage, at, 4 * (position + k), word);
    }
}
