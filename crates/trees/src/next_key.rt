// The least key greater than a given one.
ghost use Rattle.std.specs.Prelude.{◌≡◌, ◌+◌, ◌-◌, ◌≤◌, ◌<◌, length, drop, set};
ghost use Rattle.nodes.specs.Code.Cells.{memory};
ghost use Rattle.nodes.specs.Layout.{key_limit};
ghost use Rattle.trees.specs.Code.NextWalk.{next_from};
ghost use Rattle.trees.specs.Code.Coded.{Grown, key_below, KeyWritten};

use nodes::layout::KEY_LIMIT;
use nodes::least::Least;
use nodes::memory::Cells;
use nodes::step::ChildStep;

// Writes a character to a position; a page's walk writes its path by it too.
pub fn put_character(out: &mut [u8; KEY_LIMIT], at: usize, character: u8)
    requires { at < key_limit }
    ensures { (length out.old ≡ key_limit) × (out.new ≡ set out.old at character) }
{
    out[at] = character;
}

// Writes the least key below the children of a node from a character on, to a position on, and tells how many characters it has; a
// child's own key is its least. The key stands in an array of fixed size and its size beside it: there is no heap.
fn first_below(
    cells: &Cells,
    word: u32,
    from: usize,
    at: usize,
    out: &mut [u8; KEY_LIMIT],
) -> Option<usize>
    requires { (at ≤ key_limit) × Grown cells.now.layout (memory cells.now) (key_limit - at) word }
    ensures { KeyWritten out.new at result (key_below cells.now.layout (memory cells.now) (key_limit - (at + 1)) word from) }
{
    let Least::Found(character, child) = cells.least_child(word, from) else {
        return None;
    };
    let below = match cells.value_at(child) {
        Some(_) => 0,
        None => first_below(cells, child, 0, at + 1, out)?,
    };
    put_character(out, at, character);
    Some(below + 1)
}

// Writes the least key greater than the rest of a key from a position on: one below its next character, else one below a later.
fn next_from(
    cells: &Cells,
    word: u32,
    key: &[u8],
    i: usize,
    out: &mut [u8; KEY_LIMIT],
) -> Option<usize>
    requires { (i ≤ key_limit) × Grown cells.now.layout (memory cells.now) (key_limit - i) word }
    ensures { KeyWritten out.new i result (next_from cells.now.layout (memory cells.now) (key_limit - i) word (drop i key.now)) }
{
    if key.len() <= i {
        return first_below(cells, word, 0, i, out);
    }
    let character = key[i];
    let after = character as usize + 1;
    let ChildStep::Found(child) = cells.child_step(word, character) else {
        return first_below(cells, word, after, i, out);
    };
    let Some(size) = next_from(cells, child, key, i + 1, out) else {
        return first_below(cells, word, after, i, out);
    };
    put_character(out, i, character);
    Some(size + 1)
}

// Writes the least key of a word's tree that is greater than a given one, and tells how many characters it has.
pub fn next_after(cells: &Cells, word: u32, key: &[u8], out: &mut [u8; KEY_LIMIT]) -> Option<usize>
    requires { Grown cells.now.layout (memory cells.now) key_limit word }
    ensures { KeyWritten out.new 0 result (next_from cells.now.layout (memory cells.now) key_limit word key.now) }
{
    next_from(cells, word, key, 0, out)
}
