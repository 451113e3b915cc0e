// The cases that the specification lists under "Also run".
ghost use Rattle.std.specs.Prelude.{◌≡◌, ◌≤◌, [], ◌∷◌, length};
ghost use Rattle.store.specs.Insert.{insert};

use crate::insert_byte;
use blocks::validate::validate;
use printing::{answers, lines};
use std::io;
use store::formatting::format;
use store::inserting::insert;

// Inserts the start of a label into a fresh block of four cells; writes the root after the size.
fn label_root(rt: &impl Print, label: &[u8], size: usize) -> io::Result<()>
    requires { size ≤ length label.now }
{
    let mut block = [0u8; 128];
    let _ = format(&mut block, 1);
    let _ = insert(&mut block, &label[0..size], 0);
    print!(rt; "{size}")?;
    lines::root(rt, b" bytes root ", &block)
}

// Labels of 28, 29, 48 and 49 bytes in a fresh block of four cells.
pub fn labels(rt: &impl Print) -> io::Result<()> {
    let label = [0x41u8; 49];
    label_root(rt, &label, 28)?;
    label_root(rt, &label, 29)?;
    label_root(rt, &label, 48)?;
    let mut block = [0u8; 128];
    let _ = format(&mut block, 1);
    answers::answer(rt, b"49 bytes answer ", insert(&mut block, &label, 0))
}

// Inserts one child and writes how many cells it took. The child is inserted also where the write fails.
fn child(rt: &impl Print, block: &mut [u8], key: u8, value: u32) -> io::Result<()>
    ensures { block.new ≡ (insert block.old (key ∷ []) value).block }
{
    answers::count(rt, b"child count ", insert_byte(block, key, value))
}

// The seven children that make a split.
pub fn seven_children(rt: &impl Print) -> io::Result<()> {
    let mut block = [0u8; 512];
    let _ = format(&mut block, 1);
    child(rt, &mut block, b'3', 0)?;
    child(rt, &mut block, b'5', 1)?;
    child(rt, &mut block, b'A', 2)?;
    child(rt, &mut block, b'B', 3)?;
    child(rt, &mut block, b'C', 4)?;
    child(rt, &mut block, b'P', 5)?;
    child(rt, &mut block, b'Q', 6)?;
    lines::root(rt, b"split root ", &block)
}

// Blocks of 3 and of 2,049 cells.
pub fn sizes(rt: &impl Print) -> io::Result<()> {
    let mut small = [0u8; 96];
    answers::answer(rt, b"3 cells answer ", format(&mut small, 1))?;
    let mut large = [0u8; 65568];
    answers::answer(rt, b"2049 cells answer ", format(&mut large, 1))
}

// A cell visited twice: a chain whose end leads into its own cell.
pub fn visited_twice(rt: &impl Print) -> io::Result<()> {
    let mut block = [0u8; 128];
    let _ = format(&mut block, 1);
    let _ = insert_byte(&mut block, b'A', 0);
    answers::answer(rt, b"visited once answer ", validate(&block))?;
    cells::put_word(&mut block, 60, 0x3B);
    answers::answer(rt, b"visited twice answer ", validate(&block))
}
