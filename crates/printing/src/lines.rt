// One line for each value, its name first.
ghost use Rattle.std.specs.Prelude.{◌+◌, ◌*◌, ◌≤◌, length};

use cells::word_at;
use std::io;

// A name and a number in hexadecimal, eight digits at least.
pub fn word(rt: &impl Print, name: &[u8], value: u32) -> io::Result<()> {
    rt.write_all(name)?;
    println!(rt; "{value:08x}")
}

// A name and a number in decimal.
pub fn number(rt: &impl Print, name: &[u8], value: u32) -> io::Result<()> {
    rt.write_all(name)?;
    println!(rt; "{value}")
}

// A name and bytes in hexadecimal.
pub fn bytes(rt: &impl Print, name: &[u8], value: &[u8]) -> io::Result<()> {
    rt.write_all(name)?;
    for byte in value {
        print!(rt; "{byte:02x}")?;
    }
    println!(rt; "")
}

// A name and a cell of a block.
pub fn cell(rt: &impl Print, name: &[u8], block: &[u8], number: usize) -> io::Result<()>
    requires { number * 32 + 32 ≤ length block.now }
{
    bytes(rt, name, cells::cell(block, number))
}

// A name and the root word of a block, the first of its last cell.
pub fn root(rt: &impl Print, name: &[u8], block: &[u8]) -> io::Result<()>
    requires { 32 ≤ length block.now }
{
    word(rt, name, word_at(block, block.len() - 32))
}
