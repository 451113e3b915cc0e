// A block with the layout that it is read by.
ghost use Rattle.std.specs.Prelude.{true, ◌≡◌, length};
ghost use Rattle.cells.specs.Bytes.{IsBytes};
ghost use Rattle.blocks.specs.Code.Fits.{Fits};
ghost use Rattle.blocks.specs.Read.{validate};
ghost use Rattle.blocks.specs.Trailer.{layout_of, valid_slot};

use crate::answer::{Answer, Refusal};
use crate::trailer_fields::{is_bad_size, is_valid_slot, layout_of};
use nodes::layout::Layout;
use nodes::memory::Cells;

// Bytes whose number fits a layout, sound or not.
#[derive(Clone, Copy)]
pub struct Block<'a> {
    pub layout: Layout,
    pub bytes: &'a [u8],
    pub ghost fits: { Fits layout (length bytes.now) },
    pub ghost are_bytes: { IsBytes bytes.now },
}

// A slot that a block has.
#[derive(Clone, Copy)]
pub struct Slot<'a> {
    pub block: Block<'a>,
    pub number: usize,
    pub ghost valid: { valid_slot block.layout number ≡ true },
}

// A block that passed validation, read by the layout that it states.
#[derive(Clone, Copy)]
pub struct Sound<'a> {
    pub block: Block<'a>,
    pub ghost stated: { block.layout ≡ layout_of block.bytes.now },
    pub ghost valid: { validate block.bytes.now ≡ 0 },
}

impl<'a> Block<'a> {
    // The cells of the block.
    pub fn cells(&self) -> Cells<'a>
        ensures layout { result.layout ≡ self.now.layout }
        ensures bytes { result.bytes.now ≡ self.now.bytes.now }
    {
        Cells {
            layout: self.layout,
            bytes: self.bytes,
        }
    }
}

impl<'a> Block<'a> {
    ghost use Rattle.blocks.specs.Code.Blocks.{SlotOf};

    // The slot of a number.
    pub fn slot(&self, number: usize) -> Answer<Slot<'a>>
        ensures { SlotOf self.now number result }
    {
        if !is_valid_slot(self.layout, number) {
            return Err(Refusal::BadSlot);
        }
        Ok(Slot {
            block: *self,
            number,
        })
    }
}

impl<'a> TryFrom<&'a [u8]> for Block<'a> {
    ghost use Rattle.blocks.specs.Code.Blocks.{BlockOf};

    type Error = Refusal;

    ghost try_from_gives = { λ bytes result. BlockOf bytes.now result };

    // The block that bytes are by the layout that they state.
    #[tactic(auto, using(crate::proofs::Trailer::has_trailer, crate::proofs::ValidateSteps::layout_fits))]
    fn try_from(bytes: &'a [u8]) -> Result<Self, Refusal> {
        if is_bad_size(bytes) {
            return Err(Refusal::BadSize);
        }
        Ok(Block {
            layout: layout_of(bytes),
            bytes,
        })
    }
}
