// Runs the bench samples of the specification and its "Also run" cases on the code, and writes what they give.
#![tactic(auto)]

ghost use Rattle.std.specs.Prelude.{◌≡◌, [], ◌∷◌};
ghost use Rattle.blocks.specs.Answers.{counted_outcome};
ghost use Rattle.store.specs.Insert.{insert};

mod also;
mod edition_two;
mod verdicts;

use blocks::answer::Answer;
use cells::word_at;
use printing::{answers, lines};
use snapshots::{restore, snapshot};
use std::io;
use store::formatting::format;
use store::inserting::insert;

// Inserts a key of one byte; it goes by value, which takes less to check than a literal lent at each call.
pub fn insert_byte(block: &mut [u8], key: u8, value: u32) -> Answer<u32>
    ensures { insert block.old (key ∷ []) value ≡ counted_outcome result block.new }
{
    let keys = [key];
    insert(block, &keys, value)
}

// Samples A to D, on a block of four cells.
fn four_cells(rt: &impl Print) -> io::Result<()> {
    let mut block = [0xA5u8; 128];
    let _ = format(&mut block, 1);
    answers::count(rt, b"A count ", insert_byte(&mut block, b'A', 0))?;
    lines::bytes(rt, b"A block ", &block)?;
    let _ = snapshot(&mut block, 1);
    let _ = insert_byte(&mut block, b'A', 1);
    lines::root(rt, b"B root ", &block)?;
    answers::answer(rt, b"C answer ", insert_byte(&mut block, b'A', 2))?;
    let _ = restore(&mut block, 1);
    let _ = insert_byte(&mut block, b'A', 2);
    lines::cell(rt, b"D cell 2 ", &block, 2)?;
    lines::root(rt, b"D root ", &block)
}

// Samples E to G and M, on a block of eight cells.
fn eight_cells(rt: &impl Print) -> io::Result<()> {
    let mut block = [0xA5u8; 256];
    let _ = format(&mut block, 1);
    let _ = insert(&mut block, b"CHA", 0);
    lines::root(rt, b"E root ", &block)?;
    let _ = insert_byte(&mut block, b'A', 1);
    lines::root(rt, b"F root ", &block)?;
    lines::cell(rt, b"F cell 2 ", &block, 2)?;
    let _ = insert_byte(&mut block, b'5', 2);
    lines::root(rt, b"G root ", &block)?;
    lines::bytes(rt, b"G order word ", &block[126..128])?;
    let _ = insert_byte(&mut block, b'5', 3);
    lines::root(rt, b"M root ", &block)
}

// Sample H, on a block of eight cells.
fn prefix_cell(rt: &impl Print) -> io::Result<()> {
    let mut block = [0xA5u8; 256];
    let _ = format(&mut block, 1);
    let _ = insert(&mut block, b"CHA", 0);
    answers::count(rt, b"H count ", insert_byte(&mut block, b'C', 5))?;
    lines::word(rt, b"H link of cell 2 ", word_at(&block, 92))?;
    lines::root(rt, b"H root ", &block)
}

fn main(rt: HostRuntime) -> io::Result<()> {
    four_cells(&rt)?;
    eight_cells(&rt)?;
    prefix_cell(&rt)?;
    verdicts::order_words(&rt)?;
    verdicts::dates(&rt)?;
    verdicts::limits(&rt)?;
    also::labels(&rt)?;
    also::seven_children(&rt)?;
    also::sizes(&rt)?;
    also::visited_twice(&rt)?;
    edition_two::cases(&rt)
}
