// The trailer of a block: what it says.
ghost use Rattle.std.specs.Prelude.{true, false, ◌≡◌, ◌==◌, ◌+◌, ◌≤◌, length};
ghost use Rattle.std.specs.List.{list_all};
ghost use Rattle.blocks.specs.Trailer.{bad_length, bad_size, layout_of, slots, valid_slot, zero_from, trailer_at, slot_at};
ghost use Rattle.nodes.specs.Layout.{least_cells, cell_limit};

use crate::block::{Block, Slot};
use cells::word_at;
use nodes::layout::{CELL_LIMIT, Layout, is_valid_edition, least_cells};

// Where the fields stand in the last cell; the root word is the first and the slots' words follow it.
pub const BITS_AT: usize = 0x10;

const ZERO_BYTES_AT: usize = 0x11;

pub const CELLS_AT: usize = 0x14;

const ZERO_WORD_AT: usize = 0x18;

pub const EDITION_AT: usize = 0x1C;

// Whether a length is no number of whole cells from the least to the most.
#[tactic(auto, unfolding(crate::specs::Trailer::bad_length))]
pub fn is_bad_length(least: usize, size: usize) -> bool
    ensures { result ≡ bad_length least size }
{
    let cells = size / 32;
    size % 32 != 0 || cells < least || CELL_LIMIT < cells
}

// The layout that a block states.
#[tactic(auto, unfolding(crate::specs::Trailer::layout_of), using(crate::proofs::Trailer::good_length))]
pub fn layout_of(block: &[u8]) -> Layout
    requires { bad_length 1 (length block.now) ≡ false }
    ensures { result ≡ layout_of block.now }
{
    let cells = block.len() / 32;
    let edition = word_at(block, (cells - 1) * 32 + EDITION_AT);
    Layout { edition, cells }
}

// Whether a block is no valid number of whole cells. Its edition, which tells the least number, is read only where there is a
// cell to read it from.
#[tactic(auto, using(crate::proofs::TrailerSteps::size_none, crate::proofs::TrailerSteps::size_least))]
pub fn is_bad_size(block: &[u8]) -> bool
    ensures { result ≡ bad_size block.now }
{
    let size = block.len();
    is_bad_length(1, size) || is_bad_length(least_cells(layout_of(block)), size)
}

// Where the last cell begins.
pub fn trailer_at(layout: Layout) -> usize
    requires { (1 ≤ layout.cells) × (layout.cells ≤ cell_limit) }
    ensures { result ≡ trailer_at layout }
{
    (layout.cells - 1) * 32
}

// How many slots there are.
#[tactic(auto, unfolding(crate::specs::Trailer::slots))]
pub fn slots(layout: Layout) -> usize
    ensures { result ≡ slots layout }
{
    3
}

// Whether a number names a slot.
#[tactic(auto, unfolding(crate::specs::Trailer::valid_slot))]
pub fn is_valid_slot(layout: Layout, slot: usize) -> bool
    ensures { result ≡ valid_slot layout slot }
{
    1 <= slot && slot <= slots(layout)
}

// Where the word of a slot stands.
#[tactic(auto, unfolding(crate::specs::Trailer::slot_at), using(crate::proofs::TrailerSteps::slot_range))]
pub fn slot_at(layout: Layout, slot: usize) -> usize
    requires { (least_cells layout ≤ layout.cells) × (layout.cells ≤ cell_limit) × (valid_slot layout slot ≡ true) }
    ensures { result ≡ slot_at layout slot }
{
    trailer_at(layout) + 4 * slot
}

// Whether bytes are all zero.
fn is_all_zero(bytes: &[u8]) -> bool
    ensures { result ≡ list_all (λ byte. byte == 0) bytes.now }
{
    bytes.iter().all(|&byte| byte == 0)
}

// Whether so many bytes from a position on are zero.
#[tactic(auto, using(crate::proofs::TrailerSteps::all_zero))]
fn are_zero(block: &[u8], at: usize, count: usize) -> bool
    requires { at + count ≤ length block.now }
    ensures { result ≡ zero_from block.now at count }
{
    is_all_zero(&block[at..at + count])
}

impl<'a> Slot<'a> {
    ghost use Rattle.blocks.specs.Trailer.{slot_word, in_use, idle_is_zero};

    // The word of the slot.
    #[tactic(auto, using(crate::proofs::Trailer::slot_within))]
    pub fn slot_word(&self) -> u32
        ensures { result ≡ slot_word self.now.block.layout self.now.block.bytes.now self.now.number }
    {
        word_at(self.block.bytes, slot_at(self.block.layout, self.number))
    }

    // Whether the slot holds a snapshot.
    #[tactic(auto, unfolding(crate::specs::Trailer::in_use), using(crate::proofs::TrailerSteps::slot_range))]
    pub fn is_in_use(&self) -> bool
        ensures { result ≡ in_use self.now.block.layout self.now.block.bytes.now self.now.number }
    {
        (self.block.slot_bits() >> (self.number - 1)) % 2 == 1
    }

    // Whether the slot is NONE where it is not in use.
    fn is_idle_zero(&self) -> bool
        ensures { result ≡ idle_is_zero self.now.block.layout self.now.block.bytes.now self.now.number }
    {
        self.is_in_use() || self.slot_word() == 0
    }
}

impl<'a> Block<'a> {
    ghost use Rattle.blocks.specs.Trailer.{root_word, slot_bits, every_slot, idle_is_zero, valid_trailer};

    // The root word.
    #[tactic(auto, unfolding(crate::specs::Trailer::root_word))]
    pub fn root_word(&self) -> u32
        ensures { result ≡ root_word self.now.layout self.now.bytes.now }
    {
        word_at(self.bytes, trailer_at(self.layout))
    }

    // The bits of the slots in use.
    pub fn slot_bits(&self) -> u8
        ensures { result ≡ slot_bits self.now.layout self.now.bytes.now }
    {
        self.bytes[trailer_at(self.layout) + BITS_AT]
    }

    // Whether every slot that is not in use is NONE.
    #[tactic(auto, using(crate::proofs::Trailer::slot_valid, crate::proofs::TrailerSteps::every_none, crate::proofs::TrailerSteps::every_more))]
    fn are_idle_zero(&self) -> bool
        ensures { result ≡ every_slot (idle_is_zero self.now.layout self.now.bytes.now) (slots self.now.layout) }
    {
        for number in 0..slots(self.layout) {
            let slot = Slot {
                block: *self,
                number: number + 1,
            };
            if !slot.is_idle_zero() {
                return false;
            }
        }
        true
    }

    // Whether the trailer obeys its table.
    #[tactic(auto, unfolding(crate::specs::Trailer::valid_trailer), using(crate::proofs::Trailer::slots_most, crate::proofs::TrailerSteps::bits_test))]
    pub fn is_valid_trailer(&self) -> bool
        ensures { result ≡ valid_trailer self.now.layout self.now.bytes.now }
    {
        let start = trailer_at(self.layout);
        self.are_idle_zero()
            && self.slot_bits() >> slots(self.layout) == 0
            && are_zero(self.bytes, start + ZERO_BYTES_AT, 3)
            && word_at(self.bytes, start + CELLS_AT) as usize == self.layout.cells
            && are_zero(self.bytes, start + ZERO_WORD_AT, 4)
            && is_valid_edition(self.layout.edition)
    }
}
