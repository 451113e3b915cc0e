// What a block's edition and size decide.
ghost use Rattle.std.specs.Prelude.{◌≡◌, ◌<◌};
ghost use Rattle.nodes.specs.Layout.{trailer_cells, is_trailer, least_cells, valid_edition, may_embed, usable, key_limit, cell_limit};

// The most characters that a key may have.
pub const KEY_LIMIT: usize = 48;

// The most cells that a block may have.
pub const CELL_LIMIT: usize = 2048;

// The two limits are those of the definitions; functions, since a constant has no contract that could say so.
pub fn key_limit() -> usize
    ensures { result ≡ key_limit }
{
    KEY_LIMIT
}

pub fn cell_limit() -> usize
    ensures { result ≡ cell_limit }
{
    CELL_LIMIT
}

#[derive(Clone, Copy)]
pub struct Layout {
    pub edition: u32,
    pub cells: usize,
}

// How many cells at the end of the block hold the trailer.
#[tactic(auto, unfolding(crate::specs::Layout::trailer_cells))]
pub fn trailer_cells(layout: Layout) -> usize
    ensures { result ≡ trailer_cells layout }
{
    1
}

// The fewest cells that a block may have.
#[tactic(auto, unfolding(crate::specs::Layout::trailer_cells))]
pub fn least_cells(layout: Layout) -> usize
    ensures { result ≡ least_cells layout }
{
    3 + trailer_cells(layout)
}

// Whether a cell of a block is one of the trailer's.
#[tactic(auto, unfolding(crate::specs::Layout::is_trailer, crate::specs::Layout::trailer_cells))]
fn is_trailer(layout: Layout, cell: usize) -> bool
    requires { cell < layout.cells }
    ensures { result ≡ is_trailer layout cell }
{
    layout.cells - cell <= trailer_cells(layout)
}

// Whether there is such an edition.
#[tactic(auto, unfolding(crate::specs::Layout::valid_edition))]
pub fn is_valid_edition(edition: u32) -> bool
    ensures { result ≡ valid_edition edition }
{
    1 <= edition && edition <= 2
}

// Whether a prefix may stand in the cell of its node.
#[tactic(auto, unfolding(crate::specs::Layout::may_embed))]
pub fn may_embed(layout: Layout) -> bool
    ensures { result ≡ may_embed layout }
{
    2 <= layout.edition
}

// Whether a cell may hold a node: all but the first and the trailer's may.
#[tactic(auto, unfolding(crate::specs::Layout::usable, crate::specs::Layout::is_trailer, crate::specs::Layout::trailer_cells))]
pub fn is_usable(layout: Layout, cell: usize) -> bool
    ensures { result ≡ usable layout cell }
{
    1 <= cell && cell < layout.cells && !is_trailer(layout, cell)
}
