// The trailer of a block: its fields written.
ghost use Rattle.std.specs.Prelude.{length};
ghost use Rattle.cells.specs.Bytes.{IsBytes};
ghost use Rattle.blocks.specs.Code.Fits.{Fits};

use crate::trailer_fields::{BITS_AT, CELLS_AT, EDITION_AT, slot_at, trailer_at};
use cells::put_word;
use nodes::layout::Layout;

// A block that is lent to be written.
#[derive(Drop)]
pub struct BlockMut<'a> {
    pub layout: Layout,
    pub bytes: &'a mut [u8],
    pub ghost fits: { Fits layout (length bytes.now) },
    pub ghost are_bytes: { IsBytes bytes.now },
}

impl<'a> BlockMut<'a> {
    ghost use Rattle.std.specs.Prelude.{true, ◌≡◌};
    ghost use Rattle.blocks.specs.Trailer.{valid_slot};
    ghost use Rattle.blocks.specs.TrailerWrites.{with_root, with_slot_word, with_slot_bits, with_cells, with_edition};
    ghost use Rattle.blocks.specs.Code.Written.{Written};

    // Writes the root word.
    #[tactic(auto, using(cells::proofs::Words::with_word_bytes))]
    pub fn put_root(&mut self, word: u32)
        ensures { Written self.old self.new (with_root self.old.layout self.old.bytes.now word) }
    {
        let bytes = &mut *self.bytes;
        put_word(bytes, trailer_at(self.layout), word);
    }

    // Writes the word of a slot. It takes a number, for a Slot would borrow the block that is written.
    #[tactic(auto, using(cells::proofs::Words::with_word_bytes, crate::proofs::Trailer::slot_within))]
    pub fn put_slot_word(&mut self, slot: usize, word: u32)
        requires { valid_slot self.old.layout slot ≡ true }
        ensures { Written self.old self.new (with_slot_word self.old.layout self.old.bytes.now slot word) }
    {
        let bytes = &mut *self.bytes;
        put_word(bytes, slot_at(self.layout, slot), word);
    }

    // Writes the bits of the slots in use.
    #[tactic(auto, using(cells::proofs::Words::set_bytes))]
    pub fn put_slot_bits(&mut self, bits: u8)
        ensures { Written self.old self.new (with_slot_bits self.old.layout self.old.bytes.now bits) }
    {
        let bytes = &mut *self.bytes;
        bytes[trailer_at(self.layout) + BITS_AT] = bits;
    }

    // Writes the number of cells.
    #[tactic(auto, using(cells::proofs::Words::with_word_bytes))]
    pub fn put_cells(&mut self)
        ensures { Written self.old self.new (with_cells self.old.layout self.old.bytes.now) }
    {
        let bytes = &mut *self.bytes;
        put_word(
            bytes,
            trailer_at(self.layout) + CELLS_AT,
            self.layout.cells as u32,
        );
    }

    // Writes the edition.
    #[tactic(auto, using(cells::proofs::Words::with_word_bytes))]
    pub fn put_edition(&mut self)
        ensures { Written self.old self.new (with_edition self.old.layout self.old.bytes.now) }
    {
        let bytes = &mut *self.bytes;
        put_word(
            bytes,
            trailer_at(self.layout) + EDITION_AT,
            self.layout.edition,
        );
    }
}
