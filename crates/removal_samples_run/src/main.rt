// Runs removals from the bench samples of the specification and from splits on the code, and writes what they give.
#![tactic(auto)]

ghost use Rattle.std.specs.Prelude.{◌≡◌, ◌≤◌, [], ◌∷◌, length};
ghost use Rattle.store.specs.Remove.{remove};

use printing::{answers, lines};
use snapshots::{release, snapshot};
use std::io;
use store::formatting::format;
use store::inserting::insert;
use store::removing::remove;

// Makes a block fresh and inserts a key, then keys of one byte, each with its place as the value.
fn grown(block: &mut [u8], first: &[u8], others: &[u8])
    requires { length others.now ≤ 255 }
{
    let _ = format(block, 1);
    let _ = insert(block, first, 0);
    for i in 0..others.len() {
        let _ = insert(block, &others[i..i + 1], i as u32 + 1);
    }
}

// Removes a key of one byte; writes how many cells that allocated, and the root. The key is removed also where a write fails.
fn removed(rt: &impl Print, name: &[u8], block: &mut [u8], key: u8) -> io::Result<()>
    requires { 32 ≤ length block.old }
    ensures { block.new ≡ (remove block.old (key ∷ [])).block }
{
    let keys = [key];
    let answer = remove(block, &keys);
    rt.write_all(name)?;
    answers::count(rt, b" count ", answer)?;
    rt.write_all(name)?;
    lines::root(rt, b" root ", block)
}

// The only key of sample A, twice.
fn only_key(rt: &impl Print) -> io::Result<()> {
    let mut block = [0xA5u8; 128];
    grown(&mut block, b"A", b"");
    answers::count(rt, b"A without 41 count ", remove(&mut block, b"A"))?;
    lines::bytes(rt, b"A without 41 block ", &block)?;
    answers::answer(rt, b"41 once more answer ", remove(&mut block, b"A"))
}

// A key of sample G, whose sparse cell is written anew.
fn written_anew(rt: &impl Print) -> io::Result<()> {
    let mut block = [0xA5u8; 256];
    grown(&mut block, b"CHA", b"A5");
    removed(rt, b"G without 41", &mut block, b'A')?;
    lines::cell(rt, b"G without 41 cell 4 ", &block, 4)
}

// Both keys of sample H, each from a block of its own.
fn prefix_cell(rt: &impl Print) -> io::Result<()> {
    let mut block = [0xA5u8; 256];
    grown(&mut block, b"CHA", b"");
    let _ = insert(&mut block, b"C", 5);
    let mut other = block;
    removed(rt, b"H without 43", &mut block, b'C')?;
    lines::cell(rt, b"H without 43 cell 4 ", &block, 4)?;
    let _ = remove(&mut other, b"CHA");
    lines::cell(rt, b"H without 43 48 41 cell 4 ", &other, 4)
}

// The seven children that make a split: one that keeps six of them, and, with an eighth, one that keeps seven.
fn splits(rt: &impl Print) -> io::Result<()> {
    let mut block = [0u8; 512];
    grown(&mut block, b"3", b"5ABCPQ");
    let mut other = block;
    removed(rt, b"seven without 42", &mut block, b'B')?;
    lines::cell(rt, b"seven without 42 cell 13 ", &block, 13)?;
    let _ = insert(&mut other, b"R", 7);
    removed(rt, b"eight without 33", &mut other, b'3')
}

// A split whose end and mid are emptied.
fn emptied_cells(rt: &impl Print) -> io::Result<()> {
    let mut block = [0u8; 768];
    grown(&mut block, b"3", b"ABCPQRS");
    removed(rt, b"emptied", &mut block, b'3')
}

// A block with no free cell, until a slot is released.
fn full_block(rt: &impl Print) -> io::Result<()> {
    let mut block = [0u8; 128];
    grown(&mut block, b"A", b"");
    let _ = snapshot(&mut block, 1);
    let _ = insert(&mut block, b"B", 1);
    answers::answer(rt, b"full 41 answer ", remove(&mut block, b"A"))?;
    answers::answer(rt, b"full 43 answer ", remove(&mut block, b"C"))?;
    answers::answer(rt, b"full no bytes answer ", remove(&mut block, b""))?;
    let _ = release(&mut block, 1);
    removed(rt, b"released 41", &mut block, b'A')
}

fn main(rt: HostRuntime) -> io::Result<()> {
    only_key(&rt)?;
    written_anew(&rt)?;
    prefix_cell(&rt)?;
    splits(&rt)?;
    emptied_cells(&rt)?;
    full_block(&rt)
}
