// Chains: one character a place.
ghost use Rattle.std.specs.Prelude.{◌≡◌, ◌<◌, length};
ghost use Rattle.nodes.specs.Chain.{chain_child};
ghost use Rattle.nodes.specs.Layout.{cell_numbers};

use cells::{Cell, word_at};

// The child word of a place: the next place, or where the run ends the word behind it.
#[tactic(auto, using(crate::proofs::Chain::chain_child_inside, crate::proofs::Chain::chain_child_end))]
pub fn chain_child(bytes: &Cell, cell: usize, place: usize) -> u32
    requires { (cell < cell_numbers) × (place < 28) }
    ensures { result ≡ chain_child bytes.now cell place }
{
    if place == 27 {
        return word_at(bytes, 28);
    }
    (cell * 32 + (place + 1)) as u32
}
