// The least character from one on that has a child, on any block.
ghost use Rattle.std.specs.Prelude.{◌≡◌, true, ◌-◌, ◌<◌, length};
ghost use Rattle.nodes.specs.Code.Step.{chain_step, sparse_step, split_step, plain_step, prefix_step};
ghost use Rattle.nodes.specs.Code.LeastChild.{first_step, least_step};
ghost use Rattle.nodes.specs.Code.Coded.{pointer_of, least_of};
ghost use Rattle.nodes.specs.Layout.{cell_numbers};
ghost use Rattle.nodes.specs.Sparse.{valid_sparse};

use crate::chains::chain_child;
use crate::memory::Cells;
use crate::pointer::Pointer;
use crate::prefix::{is_valid_prefix, linked_word};
use crate::sparse::{is_valid_sparse, sparse_count, sparse_position};
use crate::split::is_valid_head;
use crate::step::ChildStep;
use cells::{Cell, word_at};

// A character with its child word; Broken where a rule is broken on the way to the first that could have one.
#[derive(Clone, Copy)]
pub enum Least {
    Found(u8, u32),
    Missing,
    Broken,
}

// The least at a place of a chain cell.
pub fn chain_least(bytes: &Cell, number: usize, place: usize, from: usize) -> Least
    requires { (number < cell_numbers) × (place < 28) × (from < 256) }
    ensures { least_of result ≡ first_step (chain_step bytes.now number place) (256 - from) from }
{
    let child = chain_child(bytes, number, place);
    if child == 0 {
        return Least::Broken;
    }
    let character = bytes[place];
    if (character as usize) < from {
        return Least::Missing;
    }
    Least::Found(character, child)
}

// The least in a sparse cell that obeys its rules: its children are looked at by rising character.
pub fn sparse_known(bytes: &Cell, from: usize) -> Least
    requires { (from < 256) × (valid_sparse bytes.now ≡ true) }
    ensures { least_of result ≡ first_step (sparse_step bytes.now) (256 - from) from }
{
    for i in 0..sparse_count(bytes) {
        let position = sparse_position(bytes, i);
        let character = bytes[24 + position];
        if from <= (character as usize) {
            return Least::Found(character, word_at(bytes, 4 * position));
        }
    }
    Least::Missing
}

// The least in a sparse cell.
fn sparse_least(bytes: &Cell, from: usize) -> Least
    requires { from < 256 }
    ensures { least_of result ≡ first_step (sparse_step bytes.now) (256 - from) from }
{
    if !is_valid_sparse(bytes) {
        return Least::Broken;
    }
    sparse_known(bytes, from)
}

impl<'a> Cells<'a> {
    ghost use Rattle.nodes.specs.Code.Cells.{memory, Inside};

    // The least in a split: a mid or an end that is absent is passed at once.
    fn split_least(&self, number: usize, from: usize) -> Least
        requires { (number < self.now.layout.cells) × (from < 256) }
        ensures { least_of result ≡ first_step (split_step self.now.layout (memory self.now) number) (256 - from) from }
    {
        let bytes = self.cell(number);
        if !is_valid_head(bytes) {
            return Least::Broken;
        }
        let mut x = from;
        // No `for`: it passes 64 or 8 characters at once.
        while x < 256 {
            let mid = word_at(bytes, 16 + 4 * (x / 64));
            if mid == 0 {
                x = (x / 64 + 1) * 64;
            } else {
                let below = self.branch_step(mid, x / 8 % 8);
                match below {
                    ChildStep::Broken => return Least::Broken,
                    ChildStep::Missing => x = (x / 8 + 1) * 8,
                    ChildStep::Found(end) => {
                        let last = self.branch_step(end, x % 8);
                        match last {
                            ChildStep::Broken => return Least::Broken,
                            ChildStep::Missing => x += 1,
                            ChildStep::Found(child) => return Least::Found(x as u8, child),
                        }
                    }
                }
            }
        }
        Least::Missing
    }

    // The least at a chain, sparse or split; any other is broken where one of these is called for.
    #[tactic(auto, using(crate::proofs::Steps::LeastWays::plain_least_chain, crate::proofs::Steps::LeastWays::plain_least_sparse, crate::proofs::Steps::LeastWays::plain_least_split))]
    fn plain_least(&self, pointer: Pointer, from: usize) -> Least
        requires { (from < 256) × Inside self.now.layout pointer }
        ensures { least_of result ≡ first_step (plain_step self.now.layout (memory self.now) (pointer_of pointer)) (256 - from) from }
    {
        match pointer {
            Pointer::Chain(number, place) => chain_least(self.cell(number), number, place, from),
            Pointer::Sparse(number) => sparse_least(self.cell(number), from),
            Pointer::Split(number) => self.split_least(number, from),
            _ => Least::Broken,
        }
    }

    // The least at a prefix: it is the least at the node linked.
    #[tactic(auto, using(crate::proofs::Steps::LeastWays::prefix_least_broken, crate::proofs::Steps::LeastWays::prefix_least_taken))]
    fn prefix_least(&self, number: usize, from: usize) -> Least
        requires { (number < self.now.layout.cells) × (number < cell_numbers) × (from < 256) }
        ensures { least_of result ≡ first_step (prefix_step self.now.layout (memory self.now) number) (256 - from) from }
    {
        let bytes = self.cell(number);
        if !is_valid_prefix(self.layout, bytes) {
            return Least::Broken;
        }
        let linked = self.pointer(linked_word(number, bytes));
        self.plain_least(linked, from)
    }

    // The least character from one on that the node a word names has a child for.
    #[tactic(auto, using(crate::proofs::Steps::LeastWays::least_past, crate::proofs::Steps::LeastWays::least_nothing, crate::proofs::Steps::LeastWays::least_leaf, crate::proofs::Steps::LeastWays::least_prefix))]
    pub fn least_child(&self, word: u32, from: usize) -> Least
        ensures { least_of result ≡ least_step self.now.layout (memory self.now) word from }
    {
        if 256 <= from {
            return Least::Missing;
        }
        let pointer = self.pointer(word);
        match pointer {
            Pointer::Nothing => Least::Missing,
            Pointer::Leaf(_) => Least::Missing,
            Pointer::Prefix(number) => self.prefix_least(number, from),
            _ => self.plain_least(pointer, from),
        }
    }
}
