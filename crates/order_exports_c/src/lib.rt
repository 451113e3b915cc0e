// The check of one order word as C sees it, over the proved call of the same name.
#![tactic(auto)]

ghost use Rattle.std.specs.Prelude.{◌≡◌, cond};
ghost use Rattle.order_words.specs.Order.{valid_order};

// Whether an order word is valid: 1, or 0.
#[unsafe(no_mangle)]
pub extern "C" fn exports_is_valid_order(word: u16) -> u8
    ensures { result ≡ cond (valid_order word) 1 0 }
{
    order_exports::exports_is_valid_order(word)
}
