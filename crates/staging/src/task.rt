// What a call builds from: its block, and the cells that it may allocate.
ghost use Rattle.std.specs.Prelude.{◌*◌, ◌≤◌, length};
ghost use Rattle.cells.specs.Bytes.{IsBytes};
ghost use Rattle.staging.specs.Code.Stage.{Numbered};

use crate::stage::{BuildState, STAGE_CELLS, word_to};
use nodes::layout::Layout;
use nodes::memory::Cells;

// The cells that a call may allocate, in order: those of the free list, past its end the trailer's.
#[derive(Clone, Copy)]
pub struct FreeCells<'a> {
    pub layout: Layout,
    pub numbers: &'a [u16; STAGE_CELLS],
    pub count: usize,
    pub ghost numbered: { Numbered layout count },
}

// The block is only read while a call builds.
#[derive(Clone, Copy)]
pub struct Task<'a> {
    pub free: FreeCells<'a>,
    pub block: &'a [u8],
    pub ghost fits: { free.layout.cells * 32 ≤ length block.now },
    pub ghost are_bytes: { IsBytes block.now },
}

impl<'a> FreeCells<'a> {
    ghost use Rattle.std.specs.Prelude.{◌≡◌, ◌<◌};
    ghost use Rattle.staging.specs.Code.Stage.{stage_cells, allocated};
    ghost use Rattle.staging.specs.Code.Building.{numbering};

    // The number of the cell that is allocated at a place.
    #[tactic(auto, using(crate::proofs::StageLaws::number_listed, crate::proofs::StageLaws::number_past))]
    pub fn number_at(&self, place: usize) -> u16
        ensures { result ≡ numbering self.now place }
    {
        let numbers = self.numbers;
        if place < self.count {
            return numbers[place];
        }
        (self.layout.cells - 1) as u16
    }

    // The word, the flag and the count after one more cell is allocated, with a node of a kind in it.
    pub fn allocated_as(&self, kind: usize, count: usize) -> BuildState
        requires { (kind < 32) × (count < stage_cells) }
        ensures { result ≡ allocated (numbering self.now) kind count }
    {
        let number = self.number_at(count);
        BuildState {
            word: word_to(number, kind),
            own: true,
            count: count + 1,
        }
    }
}

impl<'a> Task<'a> {
    ghost use Rattle.std.specs.Prelude.{◌≡◌};

    // The cells of the block, to be read.
    pub fn cells(&self) -> Cells<'a>
        ensures layout { result.layout ≡ self.now.free.layout }
        ensures bytes { result.bytes.now ≡ self.now.block.now }
    {
        Cells {
            layout: self.free.layout,
            bytes: self.block,
        }
    }
}
