// Prefixes in the stage: what becomes of the node at the key's end, and a value put back over a node.
ghost use Rattle.std.specs.Prelude.{◌≡◌, ◌<◌};
ghost use Rattle.cells.specs.Optional.{option_of};
ghost use Rattle.staging.specs.Code.Building.{numbering, memory};
ghost use Rattle.staging.specs.Code.Stage.{stage_cells};
ghost use Rattle.staging.specs.NewCells.{prefix_cell};
ghost use Rattle.updates.specs.Build.{put_back, inserted_at};
ghost use Rattle.updates.specs.Built.{allocate, first_used};
ghost use Rattle.updates.specs.Code.Made.{built, cells_of};
ghost use Rattle.updates.specs.Code.Staged.{leaf_made, Fitting};
ghost use Rattle.updates.specs.PrefixOver.{embeds, prefix_over};

use crate::built::Build;
use crate::chain::room_before;
use nodes::layout::{Layout, may_embed};
use nodes::pointer::{Pointer, leaf_word};
use staging::new_cells::{put_embedded, put_prefix};
use staging::stage::{BuildState, word_to};
use staging::task::{FreeCells, Task};

// A value over a node, in a new cell.
#[tactic(auto, using(crate::proofs::Stage::StagedCell::put_allocate))]
fn new_prefix(free: &FreeCells, so_far: &mut Build, value: u32, word: u32)
    requires { so_far.old.made.count < stage_cells }
    ensures { built so_far.new ≡ allocate (numbering free.now) 31 (prefix_cell value word) (cells_of so_far.old) }
{
    let count = so_far.made.count;
    put_prefix(&mut so_far.stage, count, value, word);
    so_far.made = free.allocated_as(31, count);
}

// The first byte that a node uses of a cell that this call allocated: a chain's place, 16 of a split head, 0 of any other.
#[tactic(auto, unfolding(crate::specs::Built::first_used))]
fn first_used(own: bool, word: u32) -> usize
    ensures { result ≡ first_used own word }
{
    if own && word < 2147483648 && word % 32 == 28 {
        return 16;
    }
    room_before(own, word)
}

// Whether a value goes into the cell of the node that it is over.
#[tactic(auto, unfolding(crate::specs::PrefixOver::embeds))]
fn is_embedding(layout: Layout, own: bool, word: u32) -> bool
    ensures { result ≡ embeds layout own word }
{
    may_embed(layout) && 5 <= first_used(own, word)
}

// A value over a node that this call has built: in the node's cell, or in a new one.
#[tactic(auto, using(crate::proofs::Stage::StagedPrefixes::prefix_ways))]
fn prefix_over(free: &FreeCells, so_far: &mut Build, value: u32)
    requires { Fitting (prefix_over free.now.layout (numbering free.now) value (built so_far.old)) }
    ensures { built so_far.new ≡ prefix_over free.now.layout (numbering free.now) value (built so_far.old) }
{
    let below = so_far.made;
    let word = below.word;
    let count = below.count;
    if !is_embedding(free.layout, below.own, word) || count == 0 {
        new_prefix(free, so_far, value, word);
        return;
    }
    put_embedded(&mut so_far.stage, count - 1, value, (word % 32) as u8);
    let number = free.number_at(count - 1);
    let joined = word_to(number, 31);
    so_far.made = BuildState {
        word: joined,
        own: true,
        count,
    };
}

// A value that was set aside put back.
#[tactic(auto, unfolding(crate::specs::Build::put_back))]
pub fn put_back(free: &FreeCells, so_far: &mut Build, held: Option<u32>)
    requires { Fitting (put_back free.now.layout (numbering free.now) (option_of held) (built so_far.old)) }
    ensures { built so_far.new ≡ put_back free.now.layout (numbering free.now) (option_of held) (built so_far.old) }
{
    match held {
        Some(value) => prefix_over(free, so_far, value),
        None => {}
    }
}

// The word of a leaf, with no cell allocated.
fn leaf_alone(value: u32) -> BuildState
    ensures { result ≡ leaf_made value }
{
    BuildState {
        word: leaf_word(value),
        own: false,
        count: 0,
    }
}

// NONE or a leaf becomes a leaf; a prefix is replaced by a new one to the same node; any other node gets a new one.
#[tactic(auto, unfolding(crate::specs::Build::value_at, staging::specs::Code::Stage::staged))]
pub fn at_end(task: &Task, so_far: &mut Build, word: u32, value: u32)
    ensures { built so_far.new ≡ inserted_at task.now.free.layout (numbering task.now.free) (memory task.now) value word }
{
    so_far.made = leaf_alone(value);
    let cells = task.cells();
    match cells.pointer(word) {
        Pointer::Nothing | Pointer::Leaf(_) | Pointer::Invalid => {}
        Pointer::Prefix(number) => new_prefix(&task.free, so_far, value, cells.link_at(number)),
        _ => new_prefix(&task.free, so_far, value, word),
    }
}
