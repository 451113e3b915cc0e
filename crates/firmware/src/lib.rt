// The calls for controller firmware, over numbers and bytes as C has them: the result is the answer number of the field's table, and
// what stands beside it goes through a reference, zero where the answer is no. The crate firmware_c exports them.
#![tactic(auto)]

ghost use Rattle.std.specs.Prelude.{◌≡◌};
ghost use Rattle.firmware.specs.Choices.{ours};
ghost use Rattle.firmware.specs.NumberCalls.{get_numbers, insert_numbers, verdict_numbers};

use blocks::answer::answer_number;
use blocks::get::get;
use calendar::{Day, Month, Year, date_of};
use dosing::sheet::ProductSheet;
use dosing::verdict::verdict;
use store::inserting::insert;

mod named;

use crate::named::{gate_named, reading_named};

// Inserts a key with its value into a block, and counts the cells allocated.
pub fn register_insert(block: &mut [u8], key: &[u8], value: u32, count: &mut u32) -> u8
    ensures { insert_numbers block.old key.now value ≡ record { answer = result; count = count.new; block = block.new } }
{
    let answer = insert(block, key, value);
    *count = answer.unwrap_or(0);
    answer_number(answer)
}

// The value that a block holds for a key.
pub fn register_get(block: &[u8], key: &[u8], value: &mut u32) -> u8
    ensures { get_numbers block.now key.now ≡ record { answer = result; value = value.new } }
{
    let answer = get(block, key);
    *value = answer.unwrap_or(0);
    answer_number(answer)
}

// Whether a bead may be laid today from the cartridge of a label at a temperature, and its dose in millilitres.
pub fn register_verdict(
    block: &[u8],
    label: &[u8],
    year: u32,
    month: u32,
    day: u32,
    unit: u32,
    degrees: f32,
    kind: u32,
    low: f32,
    high: f32,
    section: f32,
    extent: f32,
    dose: &mut f32,
) -> u8
    ensures { verdict_numbers ours block.now label.now year month day (record { unit = unit; degrees = degrees }) (record { kind = kind; low = low; high = high; section = section; extent = extent }) ≡ record { answer = result; dose = dose.new } }
{
    let today = date_of(Year(year), Month(month), Day(day));
    let reading = reading_named(unit, degrees);
    let sheet = ProductSheet {
        gate: gate_named(kind, low, high),
        section,
        length: extent,
    };
    let answer = verdict(block, label, today, reading, sheet);
    *dose = answer.unwrap_or(0.0);
    answer_number(answer)
}
