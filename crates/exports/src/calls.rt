// The calls that make, judge and change a block, and the next key.
ghost use Rattle.std.specs.Prelude.{◌≡◌};
ghost use Rattle.blocks.specs.Read.{next_key, validate};
ghost use Rattle.snapshots.specs.Snapshots.{release, restore, snapshot};
ghost use Rattle.store.specs.Format.{format};
ghost use Rattle.store.specs.Remove.{remove};

use blocks::answer::{NextKey, answer_number, change_number};
use blocks::next::next_key;
use blocks::validate::validate;
use nodes::layout::KEY_LIMIT;
use snapshots::{release, restore, snapshot};
use store::formatting::format;
use store::removing::remove;

// Makes a block fresh, of an edition.
pub fn register_format(block: &mut [u8], edition: u32) -> u8
    ensures { format block.old edition ≡ record { answer = result; block = block.new } }
{
    change_number(format(block, edition))
}

// Whether a block is valid in size and sound.
pub fn register_validate(block: &[u8]) -> u8
    ensures { validate block.now ≡ result }
{
    change_number(validate(block))
}

// Removes a key from a block, and counts the cells allocated.
pub fn register_remove(block: &mut [u8], key: &[u8], count: &mut u32) -> u8
    ensures { remove block.old key.now ≡ record { answer = result; count = count.new; block = block.new } }
{
    let answer = remove(block, key);
    *count = answer.unwrap_or(0);
    answer_number(answer)
}

// Keeps the root in a slot.
pub fn register_snapshot(block: &mut [u8], slot: u32) -> u8
    ensures { snapshot block.old slot ≡ record { answer = result; block = block.new } }
{
    change_number(snapshot(block, slot))
}

// Makes the root that a slot holds the present one.
pub fn register_restore(block: &mut [u8], slot: u32) -> u8
    ensures { restore block.old slot ≡ record { answer = result; block = block.new } }
{
    change_number(restore(block, slot))
}

// Gives up what a slot holds.
pub fn register_release(block: &mut [u8], slot: u32) -> u8
    ensures { release block.old slot ≡ record { answer = result; block = block.new } }
{
    change_number(release(block, slot))
}

// The least key that is greater than a given one, in 48 bytes.
pub fn register_next_key(block: &[u8], key: &[u8], size: &mut u32, out: &mut [u8; KEY_LIMIT]) -> u8
    ensures { next_key block.now key.now ≡ record { answer = result; size = size.new; key = out.new } }
{
    let answer = next_key(block, key);
    let next = answer.unwrap_or(NextKey {
        size: 0,
        key: [0; KEY_LIMIT],
    });
    *size = next.size as u32;
    // By a variable: the borrow checker takes no array straight from another's field.
    let bytes = next.key;
    *out = bytes;
    answer_number(answer)
}
