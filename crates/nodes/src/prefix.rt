// Prefixes: a value before a node, in a cell of its own or in the cell of that node.
ghost use Rattle.std.specs.Prelude.{◌≡◌, ◌<◌, length};
ghost use Rattle.nodes.specs.Layout.{cell_numbers};
ghost use Rattle.nodes.specs.Prefix.{standalone, prefix_link, valid_offset, valid_prefix};

use crate::layout::{Layout, may_embed};
use crate::memory::Cells;
use cells::{Cell, word_at};

// Whether a prefix has its cell for itself.
pub fn is_standalone(cell: &Cell) -> bool
    ensures { result ≡ standalone cell.now }
{
    cell[4] == 255
}

// Whether a node may stand at an offset of the cell that a prefix is embedded in: a chain, or a split head.
#[tactic(auto, unfolding(crate::specs::Prefix::valid_offset))]
fn is_valid_offset(layout: Layout, offset: u8) -> bool
    ensures { result ≡ valid_offset layout offset }
{
    may_embed(layout) && 5 <= offset && offset <= 28
}

// Whether a cell holds a value with its top bit clear, and behind it FF or the offset of a node.
#[tactic(auto, unfolding(crate::specs::Prefix::valid_prefix))]
pub fn is_valid_prefix(layout: Layout, cell: &Cell) -> bool
    ensures { result ≡ valid_prefix layout cell.now }
{
    word_at(cell, 0) < 0x80000000 && (is_standalone(cell) || is_valid_offset(layout, cell[4]))
}

// The word of the node that a prefix in a cell links to.
#[tactic(auto, unfolding(crate::specs::Prefix::prefix_link))]
pub fn linked_word(number: usize, cell: &Cell) -> u32
    requires { number < cell_numbers }
    ensures { result ≡ prefix_link number cell.now }
{
    if is_standalone(cell) {
        return word_at(cell, 28);
    }
    (number as u32) * 32 + (cell[4] as u32)
}

impl<'a> Cells<'a> {
    ghost use Rattle.nodes.specs.Code.Cells.{memory};

    // The same of a prefix in a cell of a block.
    #[tactic(auto)]
    pub fn link_at(&self, number: usize) -> u32
        requires { (number < self.now.layout.cells) × (number < cell_numbers) }
        ensures { result ≡ prefix_link number (memory self.now number) }
    {
        linked_word(number, self.cell(number))
    }
}
