// The writes of a staged build as records of a list.
ghost use Rattle.std.specs.Prelude.{◌≡◌, ◌+◌, ◌*◌, ◌≤◌, length, get_or};
ghost use Rattle.cells.specs.Memory.{memory_of};
ghost use Rattle.cells.specs.Writes.{cell_writes};
ghost use Rattle.nodes.specs.Layout.{cell_limit};
ghost use Rattle.staging.specs.Code.Stage.{stage_cells};
ghost use Rattle.updates.specs.Commit.{build_writes};
ghost use Rattle.updates.specs.Code.Made.{built, cells_of};
ghost use Rattle.store.specs.Committed.{commit_writes};
ghost use Rattle.write_lists.specs.Answers.{list_outcome};
ghost use Rattle.write_lists.specs.Records.{with_record, with_records};
ghost use Rattle.write_lists.specs.WriteList.{records_for};
ghost use Rattle.write_lists.specs.Code.Listing.{staged_list};

use blocks::answer::{Answer, Refusal};
use blocks::trailer_fields::trailer_at;
use cells::{put_word, word_at};
use nodes::layout::Layout;
use staging::stage::STAGE_CELLS;
use updates::built::Build;

// Writes a record at its place in a list: the byte position of a store, and its data word.
#[tactic(auto, using(crate::proofs::ListSteps::record_put))]
fn put_record(list: &mut [u8], place: usize, at: u32, word: u32)
    requires { 8 * place + 8 ≤ length list.old }
    ensures { list.new ≡ with_record list.old place (record { at = at; word = word }) }
{
    put_word(list, 8 * place, at);
    put_word(list, 8 * place + 4, word);
}

// Writes the records of a staged cell from a place on: its eight words in rising position.
fn list_cell(list: &mut [u8], place: usize, number: u16, stage: &[u8], from: usize)
    requires { (8 * place + 64 ≤ length list.old) × (from * 32 + 32 ≤ length stage.now) }
    ensures { list.new ≡ with_records list.old place (cell_writes number (memory_of stage.now from)) }
{
    for i in 0..8 {
        let word = word_at(stage, from * 32 + 4 * i);
        put_record(list, place + i, number as u32 * 32 + 4 * i as u32, word);
    }
}

// Writes the records of the staged cells, in the order allocated.
#[tactic(auto, using(crate::proofs::ListSteps::cells_listed))]
fn list_cells(list: &mut [u8], numbers: &[u16; STAGE_CELLS], so_far: &Build)
    requires { (so_far.now.made.count ≤ stage_cells) × (64 * so_far.now.made.count ≤ length list.old) }
    ensures { list.new ≡ with_records list.old 0 (build_writes (λ i. get_or numbers.now i 0) (cells_of so_far.now)) }
{
    for i in 0..so_far.made.count {
        list_cell(list, 8 * i, numbers[i], &so_far.stage, i);
    }
}

// Writes the list of a build: the records of its cells, and then that of the root word.
fn list_build(layout: Layout, list: &mut [u8], numbers: &[u16; STAGE_CELLS], so_far: &Build)
    requires least { 1 ≤ layout.cells }
    requires most { layout.cells ≤ cell_limit }
    requires staged { so_far.now.made.count ≤ stage_cells }
    requires room { 8 * records_for so_far.now.made.count ≤ length list.old }
    ensures { list.new ≡ with_records list.old 0 (commit_writes layout (λ i. get_or numbers.now i 0) (built so_far.now)) }
{
    let made = so_far.made;
    list_cells(list, numbers, so_far);
    put_record(list, 8 * made.count, trailer_at(layout) as u32, made.word);
}

// Lists what is staged, if as many cells are free and the list has room, and tells how many records it has.
#[tactic(auto, using(crate::proofs::ListSteps::staged_listed))]
pub fn list_staged(
    layout: Layout,
    list: &mut [u8],
    numbers: &[u16; STAGE_CELLS],
    so_far: &Build,
    fits: bool,
) -> Answer<u32>
    requires least { 1 ≤ layout.cells }
    requires most { layout.cells ≤ cell_limit }
    requires staged { so_far.now.made.count ≤ stage_cells }
    ensures { staged_list layout numbers.now so_far.now.made so_far.now.stage fits list.old ≡ list_outcome result list.new }
{
    if !fits {
        return Err(Refusal::NoRoom);
    }
    let records = 8 * so_far.made.count + 1;
    if list.len() < 8 * records {
        return Err(Refusal::ShortBuffer);
    }
    list_build(layout, list, numbers, so_far);
    Ok(records as u32)
}
