// The walk of a page: down the tree by rising characters, one record after the other, until one does not fit.
ghost use Rattle.std.specs.Prelude.{◌+◌, ◌-◌, ◌≤◌, ◌<◌};
ghost use Rattle.nodes.specs.Code.Cells.{memory};
ghost use Rattle.nodes.specs.Layout.{key_limit};
ghost use Rattle.trees.specs.Code.Coded.{Grown};
ghost use Rattle.pages.specs.Code.Progress.{written_of, Open, Printed};
ghost use Rattle.pages.specs.Code.Walk.{tree_pairs, pairs_below, pairs_after, RunDown};

use crate::known::known_child;
use crate::record::{Progress, put_record};
use nodes::chains::chain_child;
use nodes::layout::KEY_LIMIT;
use nodes::least::Least;
use nodes::memory::Cells;
use nodes::pointer::Pointer;
use nodes::step::ChildStep;
use trees::next_key::put_character;

// Where the walk stands: a word and how many characters lead to it.
#[derive(Clone, Copy)]
pub struct Stand {
    pub word: u32,
    pub at: usize,
}

// Goes down a run of chain places at once, its characters onto the path.
fn run_down(cells: &Cells, word: u32, at: usize, path: &mut [u8; KEY_LIMIT]) -> Stand
    requires { (at ≤ key_limit) × Grown cells.now.layout (memory cells.now) (key_limit - at) word }
    ensures { RunDown cells.now.layout (memory cells.now) path.old at word path.new result }
{
    let mut here = word;
    let mut depth = at;
    // No `for`: only the walk itself finds where the run ends.
    loop {
        let Pointer::Chain(number, place) = cells.pointer(here) else {
            return Stand {
                word: here,
                at: depth,
            };
        };
        let bytes = cells.cell(number);
        put_character(path, depth, bytes[place]);
        here = chain_child(bytes, number, place);
        depth += 1;
    }
}

// Writes the records of a word's tree, behind so many characters of the path. A progress is handed on field by field: moved as a
// whole, it would be read before its parts are stored, and the processor waits.
#[cycle(print_below_print_tree)]
fn print_tree(
    cells: &Cells,
    word: u32,
    at: usize,
    path: &mut [u8; KEY_LIMIT],
    buffer: &mut [u8],
    start: Progress,
) -> Progress
    requires { (at ≤ key_limit) × Grown cells.now.layout (memory cells.now) (key_limit - at) word × Open start buffer.old }
    ensures { Printed at path.old path.new (written_of start buffer.old) (tree_pairs cells.now.layout (memory cells.now) path.old at word) (written_of result buffer.new) }
{
    let stand = run_down(cells, word, at, path);
    let below = stand.word;
    let depth = stand.at;
    let Some(value) = cells.value_at(below) else {
        return print_below(cells, below, 0, depth, path, buffer, start);
    };
    let progress = put_record(buffer, start, path, depth, value);
    if progress.full {
        return progress;
    }
    if 2147483648 <= below {
        return progress;
    }
    let onward = Progress {
        records: progress.records,
        used: progress.used,
        full: progress.full,
    };
    print_below(cells, below, 0, depth, path, buffer, onward)
}

// Writes the records below the children of a node from a character on.
#[cycle(print_below_print_tree)]
fn print_below(
    cells: &Cells,
    word: u32,
    first: usize,
    at: usize,
    path: &mut [u8; KEY_LIMIT],
    buffer: &mut [u8],
    start: Progress,
) -> Progress
    requires { (at ≤ key_limit) × Grown cells.now.layout (memory cells.now) (key_limit - at) word × Open start buffer.old }
    ensures { Printed at path.old path.new (written_of start buffer.old) (pairs_below cells.now.layout (memory cells.now) path.old at word first) (written_of result buffer.new) }
{
    let mut progress = Progress {
        records: start.records,
        used: start.used,
        full: start.full,
    };
    let mut from = first;
    // No `for`: where to go on is told by the child found last.
    loop {
        let Least::Found(character, child) = known_child(cells, word, from) else {
            return progress;
        };
        put_character(path, at, character);
        let next = print_tree(cells, child, at + 1, path, buffer, progress);
        progress = Progress {
            records: next.records,
            used: next.used,
            full: next.full,
        };
        if progress.full {
            return progress;
        }
        from = character as usize + 1;
    }
}

// Writes the records of the keys that are greater than the rest of a key from a position on.
pub fn print_after(
    cells: &Cells,
    word: u32,
    key: &[u8],
    i: usize,
    path: &mut [u8; KEY_LIMIT],
    buffer: &mut [u8],
    start: Progress,
) -> Progress
    requires { (i ≤ key_limit) × Grown cells.now.layout (memory cells.now) (key_limit - i) word × Open start buffer.old }
    ensures { Printed i path.old path.new (written_of start buffer.old) (pairs_after cells.now.layout (memory cells.now) path.old i word key.now) (written_of result buffer.new) }
{
    if key.len() <= i {
        return print_below(cells, word, 0, i, path, buffer, start);
    }
    let character = key[i];
    let after = character as usize + 1;
    let ChildStep::Found(child) = cells.child_step(word, character) else {
        return print_below(cells, word, after, i, path, buffer, start);
    };
    put_character(path, i, character);
    let progress = print_after(cells, child, key, i + 1, path, buffer, start);
    if progress.full {
        return progress;
    }
    print_below(cells, word, after, i, path, buffer, progress)
}
