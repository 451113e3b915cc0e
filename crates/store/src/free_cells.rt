// The cells that a change of a block may allocate.
ghost use Rattle.std.specs.Prelude.{◌≡◌, ◌≤◌, length, take};
ghost use Rattle.nodes.specs.Layout.{least_cells, cell_limit};
ghost use Rattle.staging.specs.Code.Stage.{stage_cells};
ghost use Rattle.store.specs.Free.{first_tried};
ghost use Rattle.store.specs.Code.Unstamped.{unstamped_from, unstamped, Listed, ListedMore};
ghost use Rattle.store.specs.Code.Changeable.{FreeAnswer};

use blocks::answer::{Answer, Refusal};
use blocks::block::Block;
use nodes::layout::{CELL_LIMIT, Layout, is_usable, trailer_cells};
use staging::stage::STAGE_CELLS;

// The cell where the search for free ones starts: the one after the root's own, or cell 1 where the table is empty.
#[tactic(auto, unfolding(crate::specs::Free::first_tried))]
fn first_tried(layout: Layout, root: u32) -> usize
    ensures { result ≡ first_tried layout root }
{
    let cell = (root / 32) as usize;
    if is_usable(layout, cell) {
        return cell + 1;
    }
    1
}

// Lists the cells without a stamp from one up to another behind those listed already, as far as there is room, and counts all. Each cell is
// written down and only then counted or not: which are free is hard to foretell, and a processor that guesses wrong has to wait.
fn list_from(
    stamps: &[u8; CELL_LIMIT],
    numbers: &mut [u16; STAGE_CELLS],
    listed: usize,
    from: usize,
    end: usize,
) -> usize
    requires room { listed ≤ stage_cells }
    requires inside { listed ≤ length numbers.old }
    requires stamped { end ≤ cell_limit }
    ensures { ListedMore numbers.old listed (unstamped_from stamps.now from end) numbers.new result }
{
    let mut count = listed;
    for cell in from..end {
        let is_full = count == STAGE_CELLS;
        if is_full {
            return count;
        }
        numbers[count] = cell as u16;
        let is_free = stamps[cell] == 0;
        if is_free {
            count += 1;
        }
    }
    count
}

// Lists the usable cells without a stamp in the order of allocation, at most as many as a build can take, and counts them.
#[tactic(auto, using(crate::proofs::Free::first_inside, crate::proofs::FreeSteps::listed_most, crate::proofs::FreeSteps::listed_inside))]
fn free_cells(
    layout: Layout,
    root: u32,
    stamps: &[u8; CELL_LIMIT],
    numbers: &mut [u16; STAGE_CELLS],
) -> usize
    requires least { least_cells layout ≤ layout.cells }
    requires most { layout.cells ≤ cell_limit }
    ensures { Listed numbers.new result (take stage_cells (unstamped layout root stamps.now)) }
{
    let cells = layout.cells;
    let end = cells - trailer_cells(layout);
    let start = first_tried(layout, root);
    let above = list_from(stamps, numbers, 0, start, end);
    list_from(stamps, numbers, above, 1, start)
}

// Judges a block, lists its free cells and counts them; the stamps are not needed any longer then.
#[tactic(auto, using(crate::proofs::FreeSteps::sound_listed), unfolding(cells::specs::Bytes::zeros))]
pub fn free_list(block: &Block, numbers: &mut [u16; STAGE_CELLS]) -> Answer<usize>
    ensures { FreeAnswer block.now.layout block.now.bytes.now numbers.new result }
{
    let mut stamps = [0u8; CELL_LIMIT];
    if !block.is_sound(&mut stamps) {
        return Err(Refusal::Unsound);
    }
    Ok(free_cells(block.layout, block.root_word(), &stamps, numbers))
}
