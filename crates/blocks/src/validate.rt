// Validation of a whole block.
ghost use Rattle.std.specs.Prelude.{◌≡◌};
ghost use Rattle.blocks.specs.Answers.{change_number};
ghost use Rattle.blocks.specs.Code.Blocks.{Judged};
ghost use Rattle.blocks.specs.Read.{validate};

use crate::answer::{Answer, Refusal};
use crate::block::{Block, Slot, Sound};
use crate::trailer_fields::slots;
use nodes::layout::CELL_LIMIT;
use trees::stamps::Visit;

impl<'a> Slot<'a> {
    ghost use Rattle.std.specs.Prelude.{◌+◌};
    ghost use Rattle.trees.specs.Code.Visit.{VisitAnswer};
    ghost use Rattle.blocks.specs.Code.Stamps.{slot_tree};

    // Judges the root that the slot holds, with a stamp of its own; a slot that is not in use has no cells.
    #[tactic(auto, using(crate::proofs::TrailerSteps::slot_range, crate::proofs::RootWalk::slot_unused, crate::proofs::RootWalk::slot_used))]
    fn slot_check(&self, stamps: &mut [u8; CELL_LIMIT]) -> bool
        ensures { VisitAnswer (slot_tree self.now.block.layout self.now.block.bytes.now self.now.number) (self.now.number + 1) stamps.old stamps.new result }
    {
        if !self.is_in_use() {
            return true;
        }
        let visit = Visit {
            cells: self.block.cells(),
            stamp: self.number as u8 + 1,
        };
        visit.root_check(stamps, self.slot_word())
    }
}

impl<'a> Block<'a> {
    ghost use Rattle.cells.specs.Bytes.{zeros};
    ghost use Rattle.nodes.specs.Layout.{cell_limit};
    ghost use Rattle.blocks.specs.Code.Stamps.{Validated};

    // Whether the block is sound; the stamps of a sound block tell which cells its roots reach.
    pub fn is_sound(&self, stamps: &mut [u8; CELL_LIMIT]) -> bool
        requires { stamps.old ≡ zeros cell_limit }
        ensures { Validated self.now.layout self.now.bytes.now stamps.new result }
    {
        if !self.is_valid_trailer() {
            return false;
        }
        let visit = Visit {
            cells: self.cells(),
            stamp: 1,
        };
        if !visit.root_check(stamps, self.root_word()) {
            return false;
        }
        for number in 0..slots(self.layout) {
            let slot = Slot {
                block: *self,
                number: number + 1,
            };
            if !slot.slot_check(stamps) {
                return false;
            }
        }
        true
    }
}

// The block that bytes are, where they are valid in size and sound.
#[tactic(auto, unfolding(cells::specs::Bytes::zeros), using(std::proofs::lemmas::Result::err_from_is_err_and, crate::proofs::ValidateSteps::validate_size, crate::proofs::ValidateSteps::block_unsound, crate::proofs::ValidateSteps::block_valid))]
pub fn judged(bytes: &[u8]) -> Answer<Sound>
    ensures { Judged bytes.now result }
{
    let block = Block::try_from(bytes)?;
    let mut stamps = [0u8; CELL_LIMIT];
    if !block.is_sound(&mut stamps) {
        return Err(Refusal::Unsound);
    }
    Ok(Sound { block })
}

// Whether a block is valid in size and sound.
pub fn validate(block: &[u8]) -> Answer<()>
    ensures { validate block.now ≡ change_number result }
{
    judged(block)?;
    Ok(())
}
