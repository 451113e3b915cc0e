// One step down by a character, on any block.
ghost use Rattle.std.specs.Prelude.{◌≡◌, ◌<◌, length};
ghost use Rattle.nodes.specs.Layout.{cell_numbers};
ghost use Rattle.nodes.specs.Code.Step.{word_step, chain_step, sparse_step, branch_step, split_step, plain_step, prefix_step, child_step};
ghost use Rattle.nodes.specs.Code.Coded.{pointer_of, step_of};

use crate::chains::chain_child;
use crate::memory::Cells;
use crate::pointer::Pointer;
use crate::prefix::{is_valid_prefix, linked_word};
use crate::sparse::{is_valid_sparse, sparse_child};
use crate::split::{is_valid_branch, is_valid_head};
use cells::{Cell, word_at};

// Broken where a rule is broken on the way.
#[derive(Clone, Copy)]
pub enum ChildStep {
    Found(u32),
    Missing,
    Broken,
}

// A child word as a step.
#[tactic(auto, unfolding(crate::specs::Code::Step::word_step))]
fn word_step(word: u32) -> ChildStep
    ensures { step_of result ≡ word_step word }
{
    if word == 0 {
        return ChildStep::Missing;
    }
    ChildStep::Found(word)
}

// A step at a place of a chain cell.
#[tactic(auto, unfolding(crate::specs::Code::Step::chain_step, crate::specs::Chain::chain_character))]
fn chain_step(bytes: &Cell, number: usize, place: usize, character: u8) -> ChildStep
    requires { (number < cell_numbers) × (place < 28) }
    ensures { step_of result ≡ chain_step bytes.now number place character }
{
    let child = chain_child(bytes, number, place);
    if child == 0 {
        return ChildStep::Broken;
    }
    if character == bytes[place] {
        return ChildStep::Found(child);
    }
    ChildStep::Missing
}

// A step in a sparse cell.
#[tactic(auto, unfolding(crate::specs::Code::Step::sparse_step))]
fn sparse_step(bytes: &Cell, character: u8) -> ChildStep
    ensures { step_of result ≡ sparse_step bytes.now character }
{
    if !is_valid_sparse(bytes) {
        return ChildStep::Broken;
    }
    word_step(sparse_child(bytes, character))
}

impl<'a> Cells<'a> {
    ghost use Rattle.nodes.specs.Code.Cells.{memory, Inside};

    // A step in the mid or end that a word names.
    pub fn branch_step(&self, word: u32, index: usize) -> ChildStep
        requires { index < 8 }
        ensures { step_of result ≡ branch_step self.now.layout (memory self.now) word index }
    {
        let Pointer::Split(number) = self.pointer(word) else {
            return ChildStep::Broken;
        };
        let bytes = self.cell(number);
        if !is_valid_branch(bytes) {
            return ChildStep::Broken;
        }
        word_step(word_at(bytes, 4 * index))
    }

    // A step in a split: through its head, a mid and an end.
    #[tactic(auto, using(crate::proofs::Steps::StepWays::split_broken, crate::proofs::Steps::StepWays::split_missing, crate::proofs::Steps::StepWays::split_goes))]
    fn split_step(&self, number: usize, character: u8) -> ChildStep
        requires { number < self.now.layout.cells }
        ensures { step_of result ≡ split_step self.now.layout (memory self.now) number character }
    {
        let bytes = self.cell(number);
        if !is_valid_head(bytes) {
            return ChildStep::Broken;
        }
        let x = character as usize;
        let mid = word_at(bytes, 16 + 4 * (x / 64));
        if mid == 0 {
            return ChildStep::Missing;
        }
        let below = self.branch_step(mid, x / 8 % 8);
        let ChildStep::Found(end) = below else {
            return below;
        };
        self.branch_step(end, x % 8)
    }

    // A step at a chain, sparse or split; any other is broken where one of these is called for.
    #[tactic(auto, unfolding(crate::specs::Code::Step::plain_step))]
    fn plain_step(&self, pointer: Pointer, character: u8) -> ChildStep
        requires { Inside self.now.layout pointer }
        ensures { step_of result ≡ plain_step self.now.layout (memory self.now) (pointer_of pointer) character }
    {
        match pointer {
            Pointer::Chain(number, place) => chain_step(
                self.cell(number),
                number,
                place,
                character,
            ),
            Pointer::Sparse(number) => sparse_step(self.cell(number), character),
            Pointer::Split(number) => self.split_step(number, character),
            _ => ChildStep::Broken,
        }
    }

    // A step at a prefix: it is the step at the node linked.
    #[tactic(auto, unfolding(crate::specs::Code::Step::prefix_step))]
    fn prefix_step(&self, number: usize, character: u8) -> ChildStep
        requires { (number < self.now.layout.cells) × (number < cell_numbers) }
        ensures { step_of result ≡ prefix_step self.now.layout (memory self.now) number character }
    {
        let bytes = self.cell(number);
        if !is_valid_prefix(self.layout, bytes) {
            return ChildStep::Broken;
        }
        let linked = self.pointer(linked_word(number, bytes));
        self.plain_step(linked, character)
    }

    // The step from the node that a word names to its child of a character.
    #[tactic(auto, unfolding(crate::specs::Code::Step::child_step, crate::specs::Code::Step::step_at))]
    pub fn child_step(&self, word: u32, character: u8) -> ChildStep
        ensures { step_of result ≡ child_step self.now.layout (memory self.now) word character }
    {
        let pointer = self.pointer(word);
        match pointer {
            Pointer::Nothing => ChildStep::Missing,
            Pointer::Leaf(_) => ChildStep::Missing,
            Pointer::Prefix(number) => self.prefix_step(number, character),
            _ => self.plain_step(pointer, character),
        }
    }
}
