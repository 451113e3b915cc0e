// A build written from the stage into its block.
ghost use Rattle.std.specs.Prelude.{◌≡◌, true, ◌≤◌, length, get_or};
ghost use Rattle.cells.specs.Writes.{written};
ghost use Rattle.staging.specs.Code.Stage.{stage_cells};
ghost use Rattle.updates.specs.Commit.{build_writes};
ghost use Rattle.updates.specs.Code.Made.{built, cells_of};
ghost use Rattle.blocks.specs.Answers.{counted_outcome};
ghost use Rattle.blocks.specs.Code.Fits.{Fits};
ghost use Rattle.store.specs.Committed.{commit_writes};
ghost use Rattle.store.specs.Code.Changeable.{Inside, staged_outcome};

use blocks::answer::{Answer, Refusal};
use blocks::trailer_writes::BlockMut;
use nodes::layout::Layout;
use staging::stage::{STAGE_CELLS, copy_cell};
use updates::built::Build;

// Writes the staged cells, in the order allocated, into the block at their numbers.
#[tactic(auto, using(crate::proofs::CommitSteps::cells_committed))]
fn commit_cells(block: &mut [u8], numbers: &[u16; STAGE_CELLS], so_far: &Build)
    requires staged { so_far.now.made.count ≤ stage_cells }
    requires inside { Inside numbers.now so_far.now.made.count (length block.old) }
    ensures { block.new ≡ written block.old (build_writes (λ i. get_or numbers.now i 0) (cells_of so_far.now)) }
{
    for i in 0..so_far.made.count {
        copy_cell(block, numbers[i] as usize, &so_far.stage, i);
    }
}

// Writes a build into the block: its cells, and then the root word.
// Layout and numbers are no FreeCells here: that would ask that the cells listed are counted, which this never asked.
#[tactic(auto, using(crate::proofs::CommitSteps::commit_root))]
pub fn commit(layout: Layout, block: &mut [u8], numbers: &[u16; STAGE_CELLS], so_far: &Build)
    requires size { Fits layout (length block.old) }
    requires staged { so_far.now.made.count ≤ stage_cells }
    requires inside { Inside numbers.now so_far.now.made.count (length block.old) }
    ensures { block.new ≡ written block.old (commit_writes layout (λ i. get_or numbers.now i 0) (built so_far.now)) }
{
    commit_cells(block, numbers, so_far);
    let mut written = BlockMut {
        layout,
        bytes: block,
    };
    written.put_root(so_far.made.word);
}

// Commits what is staged, if as many cells are free, and tells how many it allocated.
#[tactic(auto, using(crate::proofs::CommitSteps::outcome_lacks, crate::proofs::CommitSteps::outcome_takes))]
pub fn commit_staged(
    layout: Layout,
    block: &mut [u8],
    numbers: &[u16; STAGE_CELLS],
    so_far: &Build,
    fits: bool,
) -> Answer<u32>
    requires size { Fits layout (length block.old) }
    requires staged { so_far.now.made.count ≤ stage_cells }
    requires inside { fits ≡ true → Inside numbers.now so_far.now.made.count (length block.old) }
    ensures { staged_outcome layout block.old numbers.now so_far.now.made so_far.now.stage fits ≡ counted_outcome result block.new }
{
    if !fits {
        return Err(Refusal::NoRoom);
    }
    commit(layout, block, numbers, so_far);
    Ok(so_far.made.count as u32)
}
