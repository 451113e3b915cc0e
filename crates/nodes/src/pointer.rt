// What a word names.
ghost use Rattle.std.specs.Prelude.{◌≡◌};
ghost use Rattle.nodes.specs.Pointer.{by_kind, pointer, leaf_word};
ghost use Rattle.nodes.specs.Code.Coded.{pointer_of};

use crate::layout::{Layout, is_usable};
use cells::inverted;

// A leaf holds its value, the others their cell, and a chain also the place of its character.
#[derive(Clone, Copy)]
pub enum Pointer {
    Nothing,
    Leaf(u32),
    Chain(usize, usize),
    Split(usize),
    Sparse(usize),
    Prefix(usize),
    Invalid,
}

// What a kind in a cell names.
#[tactic(auto, unfolding(crate::specs::Pointer::by_kind))]
fn by_kind(cell: usize, kind: usize) -> Pointer
    ensures { pointer_of result ≡ by_kind cell kind }
{
    match kind {
        0..=27 => Pointer::Chain(cell, kind),
        28 => Pointer::Split(cell),
        30 => Pointer::Sparse(cell),
        31 => Pointer::Prefix(cell),
        _ => Pointer::Invalid,
    }
}

// What a word names: NONE, a leaf, a kind in a usable cell, or nothing that is valid.
#[tactic(auto, unfolding(crate::specs::Pointer::pointer))]
pub fn pointer_of(layout: Layout, word: u32) -> Pointer
    ensures { pointer_of result ≡ pointer layout word }
{
    if word == 0 {
        return Pointer::Nothing;
    }
    if 0x80000000 <= word {
        return Pointer::Leaf(inverted(word));
    }
    let cell = (word / 32) as usize;
    if !is_usable(layout, cell) {
        return Pointer::Invalid;
    }
    by_kind(cell, (word % 32) as usize)
}

// The word of a leaf: its value with every bit inverted.
#[tactic(auto, unfolding(crate::specs::Pointer::leaf_word))]
pub fn leaf_word(value: u32) -> u32
    ensures { result ≡ leaf_word value }
{
    inverted(value)
}
