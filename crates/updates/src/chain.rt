// Chains over a new child, and chains that get another one.
ghost use Rattle.std.specs.Prelude.{◌≡◌, ◌<◌};
ghost use Rattle.staging.specs.Code.Building.{numbering, memory};
ghost use Rattle.staging.specs.Code.Stage.{stage_cells};
ghost use Rattle.staging.specs.NewCells.{chain_cell};
ghost use Rattle.updates.specs.Built.{room, allocate, chain_over};
ghost use Rattle.updates.specs.Code.Made.{built, cells_of};
ghost use Rattle.updates.specs.Code.Staged.{Fitting};
ghost use Rattle.updates.specs.SetChild.{chain_set};

use crate::built::Build;
use cells::cell;
use nodes::chains::chain_child;
use staging::new_cells::{put_chain, put_pair};
use staging::stage::{BuildState, put_byte, word_to};
use staging::task::{FreeCells, Task};

// The free bytes before a chain in a cell that this call allocated; none before any other node.
#[tactic(auto, unfolding(crate::specs::Built::room))]
pub fn room_before(own: bool, word: u32) -> usize
    ensures { result ≡ room own word }
{
    let kind = (word % 32) as usize;
    if own && word < 2147483648 && kind < 28 {
        return kind;
    }
    0
}

// A chain of one character in a new cell.
#[tactic(auto, using(crate::proofs::Stage::StagedCell::put_allocate))]
pub fn new_chain(free: &FreeCells, so_far: &mut Build, x: u8, word: u32)
    requires { so_far.old.made.count < stage_cells }
    ensures { built so_far.new ≡ allocate (numbering free.now) 27 (chain_cell x word) (cells_of so_far.old) }
{
    let count = so_far.made.count;
    put_chain(&mut so_far.stage, count, x, word);
    so_far.made = free.allocated_as(27, count);
}

// A character over what is built: in the byte before it, or in a new cell.
#[tactic(auto, using(crate::proofs::Stage::StagedChains::over_ways))]
pub fn chain_over(free: &FreeCells, so_far: &mut Build, x: u8)
    requires { Fitting (chain_over (numbering free.now) x (built so_far.old)) }
    ensures { built so_far.new ≡ chain_over (numbering free.now) x (built so_far.old) }
{
    let below = so_far.made;
    let count = below.count;
    let room = room_before(below.own, below.word);
    if room == 0 || count == 0 {
        new_chain(free, so_far, x, below.word);
        return;
    }
    put_byte(&mut so_far.stage, count - 1, room - 1, x);
    let number = free.number_at(count - 1);
    let word = word_to(number, room - 1);
    so_far.made = BuildState {
        word,
        own: true,
        count,
    };
}

// A child of a chain: over the same character, or beside it in a sparse cell of two.
#[tactic(auto, using(crate::proofs::Stage::StagedChains::chain_ways))]
pub fn chain_set(task: &Task, so_far: &mut Build, number: usize, place: usize, x: u8)
    requires inside { number < task.now.free.layout.cells }
    requires place { place < 28 }
    requires room { Fitting (chain_set (numbering task.now.free) (memory task.now number) number place x (built so_far.old)) }
    ensures { built so_far.new ≡ chain_set (numbering task.now.free) (memory task.now number) number place x (built so_far.old) }
{
    let bytes = cell(task.block, number);
    let character = bytes[place];
    if x == character {
        chain_over(&task.free, so_far, x);
        return;
    }
    let below = so_far.made;
    let other = chain_child(bytes, number, place);
    put_pair(
        &mut so_far.stage,
        below.count,
        x,
        below.word,
        character,
        other,
    );
    so_far.made = task.free.allocated_as(30, below.count);
}
