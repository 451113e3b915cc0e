// Rows of words in a cell.
ghost use Rattle.std.specs.Prelude.{◌≡◌, ◌==◌, ◌+◌, ◌*◌, ◌≤◌, not, length};
ghost use Rattle.nodes.specs.Sparse.{some_word};
ghost use Rattle.std.specs.List.{list_any, range_with_len};
ghost use Rattle.nodes.specs.Code.Words.{words_from};

use cells::word_at;

// Whether some word of a row is not zero.
fn is_any_set(cell: &[u8], start: usize, count: usize) -> bool
    requires { start + 4 * count ≤ length cell.now }
    ensures { result ≡ list_any (λ i. not (words_from cell.now start i == 0)) (range_with_len 0 count) }
{
    (0..count).any(|i| word_at(cell, start + 4 * i) != 0)
}

// Whether some word is a pointer, of so many in the row that starts at a byte position.
pub fn some_word(cell: &[u8], start: usize, count: usize) -> bool
    requires { start + 4 * count ≤ length cell.now }
    ensures { result ≡ some_word (words_from cell.now start) count 0 }
{
    is_any_set(cell, start, count)
}
