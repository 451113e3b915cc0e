// Running calls that are encoded in bytes, over a block that is formatted first.
ghost use Rattle.std.specs.Prelude.{◌≡◌, ◌≢◌, ◌≤◌, length, get_or};
ghost use Rattle.history.specs.Code.Encoded.{decode_call, decode_insert, decode_remove};
ghost use Rattle.history.specs.Code.Running.{step, step_outcome, run_outcome, Meets};

use blocks::answer::{Answer, change_number, count_number};
use cells::word_at;
use snapshots::{release, restore, snapshot};
use store::formatting::format;
use store::inserting::insert;
use store::removing::remove;

// Why a run stopped: the bytes are at their end, they encode no call, or there is no room for one more answer. In C each has its
// number; 1 is that of a block that was not formatted.
#[derive(Clone, Copy)]
pub enum Stop {
    AtEnd = 0,
    NoCall = 2,
    Full = 3,
}

// Runs the insertion at the front of some bytes: how many bytes it took and its answer number, nothing where they encode none.
fn step_insert(block: &mut [u8], bytes: &[u8]) -> Option<(usize, u8)>
    requires { 2 ≤ length bytes.now }
    ensures { step block.old (decode_insert bytes.now) ≡ step_outcome result block.new }
{
    let size = bytes[1] as usize;
    let end = size + 2;
    let taken = size + 6;
    if bytes.len() < taken {
        return None;
    }
    let value = word_at(bytes, end);
    let number = count_number(insert(block, &bytes[2..end], value));
    Some((taken, number))
}

// The same of the removal there.
fn step_remove(block: &mut [u8], bytes: &[u8]) -> Option<(usize, u8)>
    requires { 2 ≤ length bytes.now }
    ensures { step block.old (decode_remove bytes.now) ≡ step_outcome result block.new }
{
    let taken = bytes[1] as usize + 2;
    if bytes.len() < taken {
        return None;
    }
    let number = count_number(remove(block, &bytes[2..taken]));
    Some((taken, number))
}

// The same of a call on a slot there; its calls differ in no more than their name, but each keeps an arm, since a closure would have to
// say in its contract what each call says in its own.
fn step_slot(block: &mut [u8], bytes: &[u8]) -> Option<(usize, u8)>
    requires long { 2 ≤ length bytes.now }
    requires no_insertion { get_or bytes.now 0 0 ≢ 1 }
    requires no_removal { get_or bytes.now 0 0 ≢ 5 }
    ensures { step block.old (decode_call bytes.now) ≡ step_outcome result block.new }
{
    if bytes.len() < 5 {
        return None;
    }
    let slot = word_at(bytes, 1);
    match bytes[0] {
        2 => Some((5, change_number(snapshot(block, slot)))),
        3 => Some((5, change_number(restore(block, slot)))),
        4 => Some((5, change_number(release(block, slot)))),
        _ => None,
    }
}

// The same of whichever call is there: the shortest, a removal, has two bytes.
fn step_call(block: &mut [u8], bytes: &[u8]) -> Option<(usize, u8)>
    ensures { step block.old (decode_call bytes.now) ≡ step_outcome result block.new }
{
    if bytes.len() < 2 {
        return None;
    }
    match bytes[0] {
        1 => step_insert(block, bytes),
        5 => step_remove(block, bytes),
        _ => step_slot(block, bytes),
    }
}

// Formats a block, of an edition, and runs the encoded calls one after another, each answer number into the next answer byte: up to
// the end of the calls, the first bytes that encode none, or the end of the answer bytes. It answers how many calls it ran and why it
// stopped, or why the block was not formatted.
pub fn run_calls(
    block: &mut [u8],
    edition: u32,
    calls: &[u8],
    answers: &mut [u8],
) -> Answer<(usize, Stop)>
    ensures { Meets block.old edition calls.now answers.old (run_outcome result block.new answers.new) }
{
    format(block, edition)?;
    let mut at: usize = 0;
    let mut count: usize = 0;
    // No `for`: each call takes as many bytes as it has.
    while at < calls.len() {
        if count == answers.len() {
            return Ok((count, Stop::Full));
        }
        let Some((taken, number)) = step_call(block, &calls[at..]) else {
            return Ok((count, Stop::NoCall));
        };
        answers[count] = number;
        at += taken;
        count += 1;
    }
    Ok((count, Stop::AtEnd))
}
