// Cells visited over an array of stamps, one byte for each cell.
ghost use Rattle.std.specs.Prelude.{◌<◌, ◌≤◌};
ghost use Rattle.nodes.specs.Layout.{cell_limit};
ghost use Rattle.trees.specs.Code.Visit.{VisitAnswer, cell_if};

use nodes::layout::CELL_LIMIT;
use nodes::memory::Cells;
use nodes::pointer::Pointer;
use nodes::prefix::{is_standalone, is_valid_prefix};
use nodes::split::is_valid_branch;

// One visit of the cells that a root reaches: the block's cells, no more than there are stamps for, and the stamp that the visited ones get.
// The stamps stay outside: the visits of all roots write the same array.
#[derive(Clone, Copy)]
pub struct Visit<'a> {
    pub cells: Cells<'a>,
    pub stamp: u8,
    pub ghost stamped: { cells.layout.cells ≤ cell_limit },
}

// Gives a valid cell the stamp; refused where the cell is not valid, or has the stamp already.
#[tactic(auto, using(crate::proofs::Validation::Judging::cell_invalid, crate::proofs::Validation::Judging::cell_valid, crate::proofs::Validation::Judging::cell_twice, crate::proofs::Validation::Judging::cell_new))]
pub fn stamp_cell(stamps: &mut [u8; CELL_LIMIT], stamp: u8, number: usize, valid: bool) -> bool
    requires { number < cell_limit }
    ensures { VisitAnswer (cell_if valid number) stamp stamps.old stamps.new result }
{
    if !valid {
        return false;
    }
    if stamps[number] == stamp {
        return false;
    }
    stamps[number] = stamp;
    true
}

impl<'a> Visit<'a> {
    ghost use Rattle.nodes.specs.Code.Cells.{memory};
    ghost use Rattle.nodes.specs.Split.{end_cells};
    ghost use Rattle.nodes.specs.Prefix.{prefix_cells, valid_prefix};
    ghost use Rattle.trees.specs.Code.Visit.{cells_if};

    // Gives the cell of a prefix the stamp where the prefix has it for itself: one that is embedded is visited with its node.
    #[tactic(auto, using(crate::proofs::Validation::Judging::judged_alone, crate::proofs::Validation::Judging::judged_embedded))]
    pub fn stamp_prefix(&self, stamps: &mut [u8; CELL_LIMIT], number: usize) -> bool
        requires { number < self.now.cells.layout.cells }
        ensures { VisitAnswer (cells_if (valid_prefix self.now.cells.layout (memory self.now.cells number)) (prefix_cells number (memory self.now.cells number))) self.now.stamp stamps.old stamps.new result }
    {
        let bytes = self.cells.cell(number);
        let valid = is_valid_prefix(self.cells.layout, bytes);
        if is_standalone(bytes) {
            return stamp_cell(stamps, self.stamp, number, valid);
        }
        valid
    }

    // Gives the mid or end that a word names the stamp.
    pub fn stamp_branch(&self, stamps: &mut [u8; CELL_LIMIT], word: u32) -> bool
        ensures { VisitAnswer (end_cells self.now.cells.layout (memory self.now.cells) word) self.now.stamp stamps.old stamps.new result }
    {
        let Pointer::Split(number) = self.cells.pointer(word) else {
            return false;
        };
        stamp_cell(
            stamps,
            self.stamp,
            number,
            is_valid_branch(self.cells.cell(number)),
        )
    }
}
