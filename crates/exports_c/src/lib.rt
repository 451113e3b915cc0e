// The calls of exports as C sees them: the symbols of the service library that its header names, and of the runner of a list of calls
// that tests make, each over the proved call of the same name.
#![tactic(auto)]

ghost use Rattle.std.specs.Prelude.{◌≡◌};
ghost use Rattle.blocks.specs.Read.{next_key, validate};
ghost use Rattle.exports.specs.Code.RunNumbers.{run_numbers};
ghost use Rattle.exports.specs.PageNumbers.{page_numbers};
ghost use Rattle.snapshots.specs.Snapshots.{release, restore, snapshot};
ghost use Rattle.store.specs.Format.{format};
ghost use Rattle.store.specs.Remove.{remove};
ghost use Rattle.write_lists.specs.WriteList.{write_list};

use nodes::layout::KEY_LIMIT;

// Makes a block fresh, of an edition.
#[unsafe(no_mangle)]
pub extern "C" fn register_format(block: &mut [u8], edition: u32) -> u8
    ensures { format block.old edition ≡ record { answer = result; block = block.new } }
{
    exports::calls::register_format(block, edition)
}

// Whether a block is valid in size and sound.
#[unsafe(no_mangle)]
pub extern "C" fn register_validate(block: &[u8]) -> u8
    ensures { validate block.now ≡ result }
{
    exports::calls::register_validate(block)
}

// Removes a key from a block, and counts the cells allocated.
#[unsafe(no_mangle)]
pub extern "C" fn register_remove(block: &mut [u8], key: &[u8], count: &mut u32) -> u8
    ensures { remove block.old key.now ≡ record { answer = result; count = count.new; block = block.new } }
{
    exports::calls::register_remove(block, key, count)
}

// Keeps the root in a slot.
#[unsafe(no_mangle)]
pub extern "C" fn register_snapshot(block: &mut [u8], slot: u32) -> u8
    ensures { snapshot block.old slot ≡ record { answer = result; block = block.new } }
{
    exports::calls::register_snapshot(block, slot)
}

// Makes the root that a slot holds the present one.
#[unsafe(no_mangle)]
pub extern "C" fn register_restore(block: &mut [u8], slot: u32) -> u8
    ensures { restore block.old slot ≡ record { answer = result; block = block.new } }
{
    exports::calls::register_restore(block, slot)
}

// Gives up what a slot holds.
#[unsafe(no_mangle)]
pub extern "C" fn register_release(block: &mut [u8], slot: u32) -> u8
    ensures { release block.old slot ≡ record { answer = result; block = block.new } }
{
    exports::calls::register_release(block, slot)
}

// The least key that is greater than a given one, in 48 bytes.
#[unsafe(no_mangle)]
pub extern "C" fn register_next_key(
    block: &[u8],
    key: &[u8],
    size: &mut u32,
    out: &mut [u8; KEY_LIMIT],
) -> u8
    ensures { next_key block.now key.now ≡ record { answer = result; size = size.new; key = out.new } }
{
    exports::calls::register_next_key(block, key, size, out)
}

// Writes the records after a key into a buffer, in order: the records written, the bytes used and whether more remain. Of a buffer
// longer than 4,294,967,295 bytes it takes the first so many.
#[unsafe(no_mangle)]
pub extern "C" fn register_page(
    block: &[u8],
    key: &[u8],
    buffer: &mut [u8],
    records: &mut u32,
    used: &mut u32,
    more: &mut u32,
) -> u8
    ensures { page_numbers block.now key.now buffer.old ≡ record { answer = result; records = records.new; used = used.new; more = more.new; buffer = buffer.new } }
{
    exports::page::register_page(block, key, buffer, records, used, more)
}

// Writes an insertion as records of stores into a list buffer, for the memory driver, and counts them; the block is only read.
#[unsafe(no_mangle)]
pub extern "C" fn register_write_list(
    block: &[u8],
    key: &[u8],
    value: u32,
    list: &mut [u8],
    records: &mut u32,
) -> u8
    ensures { write_list block.now key.now value list.old ≡ record { answer = result; records = records.new; list = list.new } }
{
    exports::write_list::register_write_list(block, key, value, list, records)
}

// Makes a block fresh, of an edition, and runs the encoded calls on it, each answer number into the next answer byte: how the
// run ended and how many calls it made.
#[unsafe(no_mangle)]
pub extern "C" fn exports_run_calls(
    block: &mut [u8],
    edition: u32,
    calls: &[u8],
    answers: &mut [u8],
    count: &mut usize,
) -> u8
    ensures { run_numbers block.old edition calls.now answers.old ≡ record { ended = result; count = count.new; block = block.new; answers = answers.new } }
{
    exports::lists::exports_run_calls(block, edition, calls, answers, count)
}
