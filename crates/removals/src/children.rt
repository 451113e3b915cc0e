// The children that a node keeps when it loses one.
ghost use Rattle.std.specs.Prelude.{◌≡◌, ◌≢◌, true, ◌+◌, ◌*◌, ◌≤◌, ◌<◌, length};
ghost use Rattle.std.proofs.Math.Option.{some};
ghost use Rattle.cells.specs.Memory.{memory_of};
ghost use Rattle.nodes.specs.Chain.{chain_character, chain_child};
ghost use Rattle.nodes.specs.Code.Cells.{memory};
ghost use Rattle.nodes.specs.Layout.{cell_numbers};
ghost use Rattle.nodes.specs.Node.{Node, one_child, plain, read};
ghost use Rattle.nodes.specs.Pointer.{pointer};
ghost use Rattle.nodes.specs.Sparse.{valid_sparse, sparse_child};
ghost use Rattle.nodes.specs.Split.{split_child};
ghost use Rattle.removals.specs.Code.KeptChildren.{KeptOf, KeptAs, SplitInside};
ghost use Rattle.updates.specs.Build.{child_of};

use crate::kept_children::KeptChildren;
use cells::{Cell, word_at};
use nodes::chains::chain_child;
use nodes::memory::Cells;
use nodes::pointer::Pointer;
use nodes::sparse::{sparse_count, sparse_position};
use updates::split::word_below;

// Those of a place of a chain cell: none, or its own where another is lost.
fn chain_kept(bytes: &Cell, number: usize, place: usize, x: u8) -> KeptChildren
    requires numbered { number < cell_numbers }
    requires inside { place < 28 }
    requires there { chain_child bytes.now number place ≢ 0 }
    ensures { KeptOf (one_child (chain_character bytes.now place) (chain_child bytes.now number place)) x result.characters result.words result.count }
{
    let mut kept = KeptChildren::none();
    let character = bytes[place];
    if character != x {
        let child = chain_child(bytes, number, place);
        kept.push(character, child);
    }
    kept
}

// Those of a sparse cell.
fn sparse_kept(bytes: &Cell, x: u8) -> KeptChildren
    requires { valid_sparse bytes.now ≡ true }
    ensures { KeptOf (sparse_child bytes.now) x result.characters result.words result.count }
{
    let mut kept = KeptChildren::none();
    for i in 0..sparse_count(bytes) {
        let position = sparse_position(bytes, i);
        let character = bytes[24 + position];
        if character != x {
            let child = word_at(bytes, 4 * position);
            kept.push(character, child);
        }
    }
    kept
}

// Those of a split, where they are no more than six: a mid or an end that is absent is passed at once.
fn split_kept(block: &[u8], number: usize, x: u8) -> Option<KeptChildren>
    requires inside { number * 32 + 32 ≤ length block.now }
    requires branches { SplitInside (memory_of block.now) (length block.now) number }
    ensures { KeptAs (split_child (memory_of block.now) number) x result }
{
    let mut kept = KeptChildren::none();
    let mut y: usize = 0;
    // No `for`: it passes 64 or 8 characters at once.
    while y < 256 {
        let mid = word_at(block, number * 32 + (16 + 4 * (y / 64)));
        let end = word_below(block, mid, y / 8 % 8);
        if mid == 0 {
            y = (y / 64 + 1) * 64;
        } else if end == 0 {
            y = (y / 8 + 1) * 8;
        } else {
            let child = word_below(block, end, y % 8);
            let character = y as u8;
            y += 1;
            if child != 0 && character != x {
                if kept.count == 6 {
                    return None;
                }
                kept.push(character, child);
            }
        }
    }
    Some(kept)
}

// Those of a node, by its kind, where they are no more than six.
pub fn kept_children(cells: &Cells, word: u32, x: u8) -> Option<KeptChildren>
    requires { (node : Node) × (read cells.now.layout (memory cells.now) word ≡ some node) }
    ensures { KeptAs (child_of (plain cells.now.layout (memory cells.now) (pointer cells.now.layout word))) x result }
{
    match cells.pointer(word) {
        Pointer::Chain(number, place) => Some(chain_kept(cells.cell(number), number, place, x)),
        Pointer::Sparse(number) => Some(sparse_kept(cells.cell(number), x)),
        Pointer::Split(number) => split_kept(cells.bytes, number, x),
        _ => Some(KeptChildren::none()),
    }
}
