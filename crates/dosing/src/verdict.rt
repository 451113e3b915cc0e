// The verdict on a cartridge: whether a bead of it may be laid today at a temperature, and how much of it that takes.
ghost use Rattle.std.specs.Prelude.{◌++◌, ◌≡◌};
ghost use Rattle.blocks.specs.Answers.{change_number, refusal_number};
ghost use Rattle.blocks.specs.Refusal.{first_refusal};
ghost use Rattle.dosing.specs.Verdict.{verdict, verdict_of};
ghost use Rattle.dosing.specs.Answers.{verdict_outcome};
ghost use Rattle.dosing.specs.Code.VerdictParts.{held_refusals, input_refusals, refused_verdict};

use crate::sheet::{ProductSheet, dose, is_valid_sheet};
use crate::temperature::{Reading, TemperatureGate, celsius, is_in_gate, is_valid_reading};
use blocks::answer::{Answer, Refusal};
use blocks::get::get;
use calendar::{Date, is_after, is_date};

// What is wrong with the sheet, the reading or today, whatever the block holds.
// The three go by themselves, as `verdict` takes them: a struct would be made there only to be taken apart below.
#[tactic(auto, unfolding(crate::specs::Code::VerdictParts::input_refusals, blocks::specs::Refusal::first_refusal))]
fn inputs_refusal(today: Date, reading: Reading, sheet: ProductSheet) -> Answer<()>
    ensures { first_refusal (input_refusals today reading sheet) ≡ change_number result }
{
    if !is_valid_sheet(sheet) {
        return Err(Refusal::BadSheet);
    }
    if !is_valid_reading(reading) {
        return Err(Refusal::BadReading);
    }
    if !is_date(today) {
        return Err(Refusal::BadToday);
    }
    Ok(())
}

// What is wrong with the value that the block holds for the label, or with the temperature.
#[tactic(auto, unfolding(crate::specs::Code::VerdictParts::held_refusals, blocks::specs::Refusal::first_refusal))]
fn held_refusal(value: u32, today: Date, reading: Reading, gate: TemperatureGate) -> Answer<()>
    ensures { first_refusal (held_refusals value today reading gate) ≡ change_number result }
{
    let expiry = Date::from(value);
    if !is_date(expiry) {
        return Err(Refusal::HeldNoDate);
    }
    if is_after(today, expiry) {
        return Err(Refusal::Expired);
    }
    if !is_in_gate(gate, celsius(reading)) {
        return Err(Refusal::OutsideGate);
    }
    Ok(())
}

// The verdict on a label with this value: the inputs are judged before the value.
#[tactic(auto, using(crate::proofs::VerdictSteps::held_steps))]
fn held_verdict(value: u32, today: Date, reading: Reading, sheet: ProductSheet) -> Answer<f32>
    ensures { verdict_of (input_refusals today reading sheet ++ held_refusals value today reading sheet.gate) sheet ≡ verdict_outcome result }
{
    inputs_refusal(today, reading, sheet)?;
    held_refusal(value, today, reading, sheet.gate)?;
    Ok(dose(sheet))
}

// The verdict on a label that was not found: a missing label is said only after the inputs are judged.
#[tactic(auto, using(crate::proofs::VerdictSteps::refused_steps))]
fn refused_verdict(
    refusal: Refusal,
    today: Date,
    reading: Reading,
    sheet: ProductSheet,
) -> Answer<f32>
    ensures { refused_verdict (refusal_number refusal) (first_refusal (input_refusals today reading sheet)) ≡ verdict_outcome result }
{
    if let Refusal::Missing = refusal {
        inputs_refusal(today, reading, sheet)?;
    }
    Err(refusal)
}

// Whether a bead may be laid today from the cartridge of a label at a temperature, and its dose in millilitres.
#[tactic(auto, using(crate::proofs::VerdictSteps::verdict_steps))]
pub fn verdict(
    block: &[u8],
    label: &[u8],
    today: Date,
    reading: Reading,
    sheet: ProductSheet,
) -> Answer<f32>
    ensures { verdict block.now label.now today reading sheet ≡ verdict_outcome result }
{
    match get(block, label) {
        Ok(value) => held_verdict(value, today, reading, sheet),
        Err(refusal) => refused_verdict(refusal, today, reading, sheet),
    }
}
