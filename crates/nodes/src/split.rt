// Splits: a head, its mids and their ends.
ghost use Rattle.std.specs.Prelude.{◌≡◌, length};
ghost use Rattle.nodes.specs.Split.{valid_head, valid_branch};

use crate::words::some_word;
use cells::Cell;

// Whether a head holds a pointer.
pub fn is_valid_head(cell: &Cell) -> bool
    ensures { result ≡ valid_head cell.now }
{
    some_word(cell, 16, 4)
}

// Whether a mid or an end holds a pointer. Apart from the test of a head: the definitions are two, for other words of the cell.
pub fn is_valid_branch(cell: &Cell) -> bool
    ensures { result ≡ valid_branch cell.now }
{
    some_word(cell, 0, 8)
}
