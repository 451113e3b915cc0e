// The digits of an order word.
#![tactic(auto)]

ghost use Rattle.std.specs.Prelude.{◌≡◌, length, get_or};
ghost use Rattle.order_words.specs.Digits.{order_digits};

// How many digits an order word has: one for each power of 6 that it reaches.
pub fn digit_count(word: u16) -> usize
    ensures { result ≡ length (order_digits word) }
{
    match word {
        0 => 0,
        1..=5 => 1,
        6..=35 => 2,
        36..=215 => 3,
        216..=1295 => 4,
        1296..=7775 => 5,
        7776..=46655 => 6,
        _ => 7,
    }
}

// The digit at a place counted from the lowest; 0 above the highest.
pub fn digit_at(word: u16, at: usize) -> usize
    ensures { result ≡ get_or (order_digits word) at 0 }
{
    if 7 <= at {
        return 0;
    }
    let mut rest = word as usize;
    for passed in 0..at {
        rest = rest / 6;
    }
    rest % 6
}
