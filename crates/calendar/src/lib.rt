#![tactic(auto)]

ghost use Rattle.std.specs.Prelude.{true, ◌≡◌};
ghost use Rattle.calendar.specs.Date.{is_leap, february_days, days_of_month, date_of, is_date, packed_date, unpacked_date, is_after};

// A year of the Gregorian calendar; any number, until `is_date` has judged it.
#[derive(Clone, Copy, PartialEq, Eq, PartialOrd, Ord)]
pub struct Year(pub u32);

// A month, 1 for January; any number until judged.
#[derive(Clone, Copy, PartialEq, Eq, PartialOrd, Ord)]
pub struct Month(pub u32);

// A day of its month, from 1 on; any number until judged.
#[derive(Clone, Copy, PartialEq, Eq, PartialOrd, Ord)]
pub struct Day(pub u32);

// Three parts that need not be a date, so that what comes in can be judged before it is packed.
#[derive(Clone, Copy, PartialEq, Eq, PartialOrd, Ord)]
pub struct Date {
    pub year: Year,
    pub month: Month,
    pub day: Day,
}

// Makes a date of its parts; each has its own kind, so that a swapped call does not compile.
pub fn date_of(year: Year, month: Month, day: Day) -> Date
    ensures { result ≡ date_of year month day }
{
    Date { year, month, day }
}

// The leap rule, alone so that another rule changes nothing else.
pub fn is_leap(year: Year) -> bool
    ensures { result ≡ is_leap year }
{
    if year.0 % 100 == 0 {
        year.0 % 400 == 0
    } else {
        year.0 % 4 == 0
    }
}

// February has a day more in a leap year.
#[tactic(auto, unfolding(crate::specs::Date::february_days))]
pub fn february_days(year: Year) -> u32
    ensures { result ≡ february_days year }
{
    if is_leap(year) { 29 } else { 28 }
}

// The last day of a month; a month that is none has no day at all, so it needs no test of its own.
#[tactic(auto, unfolding(crate::specs::Date::days_of_month))]
pub fn days_of_month(year: Year, month: Month) -> u32
    ensures { result ≡ days_of_month year month }
{
    match month.0 {
        2 => february_days(year),
        4 | 6 | 9 | 11 => 30,
        1..=12 => 31,
        _ => 0,
    }
}

// Judges the three numbers as they come, since packing first would turn month 35 into another date.
#[tactic(auto, unfolding(crate::specs::Date::is_date))]
pub fn is_date(date: Date) -> bool
    ensures { result ≡ is_date date }
{
    2000 <= date.year.0
        && date.year.0 <= 2199
        && 1 <= date.day.0
        && date.day.0 <= days_of_month(date.year, date.month)
}

// The one number that a cartridge holds for its expiry.
#[tactic(auto, using(crate::proofs::Laws::date_within))]
pub fn packed(date: Date) -> u32
    requires { is_date date ≡ true }
    ensures { result ≡ packed_date date }
{
    date.year.0 * 512 + date.month.0 * 32 + date.day.0
}

impl From<u32> for Date {
    ghost use Rattle.calendar.specs.Date.{unpacked_date};

    ghost from_gives = { λ value date. date ≡ unpacked_date value };

    // What `unpacked` tells.
    fn from(value: u32) -> Date {
        unpacked(value)
    }
}

// The three numbers of a held value, which need not be a date.
pub fn unpacked(value: u32) -> Date
    ensures { result ≡ unpacked_date value }
{
    date_of(Year(value / 512), Month(value / 32 % 16), Day(value % 32))
}

// Whether today lies past the expiry: the expiry day itself is still good.
#[tactic(auto, unfolding(crate::specs::Date::is_after))]
pub fn is_after(today: Date, expiry: Date) -> bool
    ensures { result ≡ is_after today expiry }
{
    expiry < today
}
