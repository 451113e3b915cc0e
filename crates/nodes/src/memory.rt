// The cells of a block, with the layout that they are read by.
ghost use Rattle.std.specs.Prelude.{◌*◌, ◌≤◌, length};
ghost use Rattle.cells.specs.Bytes.{IsBytes};

use crate::layout::Layout;
use crate::pointer::{Pointer, pointer_of};
use cells::Cell;

// A block of which each cell of its layout can be read.
#[derive(Clone, Copy)]
pub struct Cells<'a> {
    pub layout: Layout,
    pub bytes: &'a [u8],
    pub ghost fits: { layout.cells * 32 ≤ length bytes.now },
    pub ghost are_bytes: { IsBytes bytes.now },
}

impl<'a> Cells<'a> {
    ghost use Rattle.std.specs.Prelude.{◌≡◌, ◌<◌};
    ghost use Rattle.nodes.specs.Code.Cells.{memory, Inside};
    ghost use Rattle.nodes.specs.Code.Coded.{pointer_of};
    ghost use Rattle.nodes.specs.Pointer.{pointer};

    // The 32 bytes of a cell.
    pub fn cell(&self, number: usize) -> &'a Cell
        requires { number < self.now.layout.cells }
        ensures { result.now ≡ memory self.now number }
    {
        cells::cell(self.bytes, number)
    }

    // What a word names, in a cell that stands in the block.
    pub fn pointer(&self, word: u32) -> Pointer
        ensures names { pointer_of result ≡ pointer self.now.layout word }
        ensures inside { Inside self.now.layout result }
    {
        pointer_of(self.layout, word)
    }
}
