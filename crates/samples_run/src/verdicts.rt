// Samples I to L, and limits met exactly.
use crate::insert_byte;
use blocks::answer::Answer;
use calendar::{Date, Day, Month, Year, date_of, is_date, packed};
use dosing::sheet::ProductSheet;
use dosing::temperature::{Reading, TemperatureGate, to_celsius};
use dosing::verdict::verdict;
use order_list::is_valid_order;
use printing::{answers, lines};
use std::io;
use store::formatting::format;

// An order word of sample I, and whether it is one.
fn order_word(rt: &impl Print, word: u16) -> io::Result<()> {
    print!(rt; "I {word:04x}")?;
    lines::number(rt, b" ", u32::from(is_valid_order(word)))
}

// Sample I.
pub fn order_words(rt: &impl Print) -> io::Result<()> {
    order_word(rt, 0x0006)?;
    order_word(rt, 0x0026)?;
    order_word(rt, 0x8129)?;
    order_word(rt, 0x0001)?;
    order_word(rt, 0x0007)
}

// Whether a verdict gives this dose.
fn gives(answer: Answer<f32>, dose: f32) -> bool {
    answer.is_ok_and(|millilitres| millilitres == dose)
}

// The number of 7 March 2025.
const EXPIRY: u32 = 1036903;

// A cartridge that expires on 7 March 2025, judged on a day with a gate and a reading, for K's bead.
fn judged(today: Date, gate: TemperatureGate, reading: Reading) -> Answer<f32> {
    let mut block = [0u8; 128];
    let _ = format(&mut block, 1);
    let _ = insert_byte(&mut block, b'A', EXPIRY);
    let sheet = ProductSheet {
        gate,
        section: 60.0,
        length: 4000.0,
    };
    verdict(&block, b"A", today, reading, sheet)
}

// Judges that cartridge and writes the answer number.
fn answered(
    rt: &impl Print,
    name: &[u8],
    today: Date,
    gate: TemperatureGate,
    reading: Reading,
) -> io::Result<()> {
    answers::answer(rt, name, judged(today, gate, reading))
}

// A date as the number that a block holds, 0 where it is none.
fn packed_number(date: Date) -> u32 {
    if is_date(date) {
        return packed(date);
    }
    0
}

// Samples J, K and L.
pub fn dates(rt: &impl Print) -> io::Result<()> {
    let gate = TemperatureGate::Any;
    let room = Reading::Celsius(20.0);
    let expiry = date_of(Year(2025), Month(3), Day(7));
    lines::number(rt, b"J packed ", packed_number(expiry))?;
    answered(rt, b"J that day ", expiry, gate, room)?;
    let next = date_of(Year(2025), Month(3), Day(8));
    answered(rt, b"J next day ", next, gate, room)?;
    let july = date_of(Year(2025), Month(7), Day(3));
    answered(rt, b"J 3 July 2025 ", july, gate, room)?;
    lines::number(
        rt,
        b"K 240 ml ",
        u32::from(gives(judged(expiry, gate, room), 240.0)),
    )?;
    lines::number(rt, b"L 200 degrees ", u32::from(to_celsius(392.0) == 200.0))
}

// Limits met exactly, and just missed.
pub fn limits(rt: &impl Print) -> io::Result<()> {
    let day = date_of(Year(2025), Month(3), Day(7));
    let gate = TemperatureGate::Between(5.0, 200.0);
    answered(rt, b"low limit met ", day, gate, Reading::Celsius(5.0))?;
    answered(
        rt,
        b"high limit met ",
        day,
        gate,
        Reading::Fahrenheit(392.0),
    )?;
    answered(rt, b"low limit missed ", day, gate, Reading::Celsius(4.5))?;
    let any = TemperatureGate::Any;
    answered(rt, b"reading limit met ", day, any, Reading::Celsius(400.0))?;
    answered(
        rt,
        b"reading limit missed ",
        day,
        any,
        Reading::Celsius(400.5),
    )
}
