// Making a fresh block.
ghost use Rattle.std.specs.Prelude.{◌≡◌};
ghost use Rattle.blocks.specs.Answers.{changed_outcome};
ghost use Rattle.store.specs.Format.{format};

use blocks::answer::{Answer, Refusal};
use blocks::trailer_fields::is_bad_length;
use blocks::trailer_writes::BlockMut;
use nodes::layout::{Layout, is_valid_edition, least_cells};

// Makes a block fresh, of an edition: all zero but for its number of cells and its edition.
#[tactic(auto, using(crate::proofs::FormatSteps::format_steps), unfolding(cells::specs::Bytes::zeros))]
pub fn format(block: &mut [u8], edition: u32) -> Answer<()>
    ensures { format block.old edition ≡ changed_outcome result block.new }
{
    if !is_valid_edition(edition) {
        return Err(Refusal::BadSize);
    }
    let size = block.len();
    let cells = size / 32;
    let layout = Layout { edition, cells };
    if is_bad_length(least_cells(layout), size) {
        return Err(Refusal::BadSize);
    }
    block.fill(0);
    let mut fresh = BlockMut {
        layout,
        bytes: block,
    };
    fresh.put_cells();
    fresh.put_edition();
    Ok(())
}
