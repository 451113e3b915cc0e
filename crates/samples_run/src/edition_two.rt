// Blocks of edition 2: sample H, and values that go into the cell of the node that they are over.
use crate::insert_byte;
use blocks::validate::validate;
use printing::{answers, lines};
use std::io;
use store::formatting::format;
use store::inserting::insert;

// Sample H takes two cells in either edition.
fn sample_h(rt: &impl Print) -> io::Result<()> {
    let mut block = [0xA5u8; 256];
    let _ = format(&mut block, 2);
    let _ = insert(&mut block, b"CHA", 0);
    answers::count(
        rt,
        b"H in edition 2 count ",
        insert_byte(&mut block, b'C', 5),
    )
}

// The value of C in the cell of the run below it; the same block judged as one of edition 1.
fn run_below(rt: &impl Print) -> io::Result<()> {
    let mut block = [0xA5u8; 256];
    let _ = format(&mut block, 2);
    let _ = insert_byte(&mut block, b'C', 5);
    answers::count(rt, b"run below C count ", insert(&mut block, b"CHA", 0))?;
    lines::cell(rt, b"run below C cell 2 ", &block, 2)?;
    lines::root(rt, b"run below C root ", &block)?;
    answers::answer(rt, b"as edition 2 answer ", validate(&block))?;
    cells::put_word(&mut block, 252, 1);
    answers::answer(rt, b"as edition 1 answer ", validate(&block))
}

// Editions that there are none of.
fn other_editions(rt: &impl Print) -> io::Result<()> {
    let mut block = [0u8; 128];
    answers::answer(rt, b"edition 0 answer ", format(&mut block, 0))?;
    answers::answer(rt, b"edition 3 answer ", format(&mut block, 3))
}

pub fn cases(rt: &impl Print) -> io::Result<()> {
    sample_h(rt)?;
    run_below(rt)?;
    other_editions(rt)
}
