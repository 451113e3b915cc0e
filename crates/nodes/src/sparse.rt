// Sparse cells: two to six children.
ghost use Rattle.std.specs.Prelude.{◌≡◌, not, ◌-◌, ◌≤◌, length, get_or};
ghost use Rattle.nodes.specs.Sparse.{some_word, sparse_word, sparse_order, sparse_digits, sparse_count, sparse_child, valid_sparse};
ghost use Rattle.nodes.specs.Code.RisingPointers.{rising_pointers};

use cells::{Cell, word_at};
use order_list::is_valid_order;
use order_words::{digit_at, digit_count};

// The order word of a sparse cell.
#[tactic(auto, unfolding(crate::specs::Sparse::sparse_order))]
pub fn sparse_order(cell: &Cell) -> u16
    ensures { result ≡ sparse_order cell.now }
{
    u16::from_be_bytes([cell[30], cell[31]])
}

// How many children a sparse cell has.
pub fn sparse_count(cell: &Cell) -> usize
    ensures { result ≡ sparse_count cell.now }
{
    digit_count(sparse_order(cell))
}

// The position of the i-th child by rising character.
pub fn sparse_position(cell: &Cell, i: usize) -> usize
    ensures { result ≡ get_or (sparse_digits cell.now) i 0 }
{
    digit_at(sparse_order(cell), i)
}

// Whether the words past the children are NONE: one pass of fixed length, as there are two children at least.
fn rest_is_none(cell: &Cell, count: usize) -> bool
    requires { 2 ≤ count }
    ensures { result ≡ not (some_word (sparse_word cell.now) (6 - count) count) }
{
    for i in 2..6 {
        if count <= i && word_at(cell, 4 * i) != 0 {
            return false;
        }
    }
    true
}

// Whether the characters rise strictly in the order given, each with a pointer: one pass takes the positions from the order word.
fn are_rising(cell: &Cell, count: usize) -> bool
    requires { count ≡ sparse_count cell.now }
    ensures { result ≡ rising_pointers cell.now 0 (sparse_digits cell.now) }
{
    let mut rest = sparse_order(cell) as usize;
    let mut bound: usize = 0;
    for i in 0..count {
        let position = rest % 6;
        let character = cell[24 + position] as usize;
        if character < bound {
            return false;
        }
        if word_at(cell, 4 * position) == 0 {
            return false;
        }
        bound = character + 1;
        rest = rest / 6;
    }
    true
}

// Whether a sparse cell obeys its rules.
pub fn is_valid_sparse(cell: &Cell) -> bool
    ensures { result ≡ valid_sparse cell.now }
{
    if !is_valid_order(sparse_order(cell)) {
        return false;
    }
    let count = sparse_count(cell);
    if !rest_is_none(cell, count) {
        return false;
    }
    are_rising(cell, count)
}

// The child word of a character, NONE where the cell has none.
pub fn sparse_child(cell: &Cell, character: u8) -> u32
    ensures { result ≡ sparse_child cell.now character }
{
    for i in 0..sparse_count(cell) {
        if character == cell[24 + i] {
            return word_at(cell, 4 * i);
        }
    }
    0
}
