// The check of one order word alone, for tests and tools. The crate order_exports_c exports it to C.
#![tactic(auto)]

ghost use Rattle.std.specs.Prelude.{◌≡◌, cond};
ghost use Rattle.order_words.specs.Order.{valid_order};

use order_list::is_valid_order;

// Whether an order word is valid: 1, or 0.
pub fn exports_is_valid_order(word: u16) -> u8
    ensures { result ≡ cond (valid_order word) 1 0 }
{
    u8::from(is_valid_order(word))
}
