// The order word of a sparse cell that takes one more child.
ghost use Rattle.std.specs.Prelude.{◌≡◌, true, ◌+◌, ◌*◌, ◌≤◌, ◌<◌, length};
ghost use Rattle.order_words.specs.Digits.{digits, encode};
ghost use Rattle.order_words.specs.Extended.{with_digit, extended_order};
ghost use Rattle.nodes.specs.Sparse.{sparse_character, sparse_order, sparse_count, valid_sparse};

use cells::Cell;
use nodes::sparse::sparse_order;
use order_words::digit_count;

// The number of the digits left, with a digit put in below the first one whose character is greater.
fn with_digit(cell: &Cell, x: u8, digit: usize, rest: usize, left: usize) -> usize
    requires digit { digit < 6 }
    requires word { rest < 65536 }
    requires short { left ≤ 7 }
    requires whole { encode (digits left rest) ≡ rest }
    ensures { result ≡ encode (with_digit (sparse_character cell.now) x digit (digits left rest)) }
{
    if rest == 0 || left == 0 {
        return digit;
    }
    let lowest = rest % 6;
    if x < cell[24 + lowest] {
        return rest * 6 + digit;
    }
    with_digit(cell, x, digit, rest / 6, left - 1) * 6 + lowest
}

// The order word with the first free position put in for a character.
#[tactic(auto, using(crate::proofs::OrderInsert::digit_small, crate::proofs::OrderInsert::extended_small, crate::proofs::OrderInsert::extended_is, order_words::proofs::Coding::encode_digits))]
pub fn extended_order(cell: &Cell, x: u8) -> u16
    requires valid { valid_sparse cell.now ≡ true }
    requires few { sparse_count cell.now < 6 }
    ensures { result ≡ extended_order (sparse_character cell.now) x (sparse_order cell.now) }
{
    let order = sparse_order(cell);
    let digit = digit_count(order);
    with_digit(cell, x, digit, order as usize, 7) as u16
}
