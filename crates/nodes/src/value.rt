// The value at a node.
ghost use Rattle.std.specs.Prelude.{◌≡◌};

use crate::memory::Cells;
use crate::pointer::Pointer;
use cells::word_at;

impl<'a> Cells<'a> {
    ghost use Rattle.nodes.specs.Value.{value_of};
    ghost use Rattle.cells.specs.Optional.{option_of};
    ghost use Rattle.nodes.specs.Code.Cells.{memory};

    // The value at the node that a word names: a leaf's or a prefix's.
    #[tactic(auto, unfolding(crate::specs::Value::value_of, crate::specs::Value::pointer_value))]
    pub fn value_at(&self, word: u32) -> Option<u32>
        ensures { option_of result ≡ value_of self.now.layout (memory self.now) word }
    {
        match self.pointer(word) {
            Pointer::Leaf(value) => Some(value),
            Pointer::Prefix(number) => Some(word_at(self.cell(number), 0)),
            _ => None,
        }
    }
}
