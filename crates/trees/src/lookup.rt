// The value of a key in the tree of a word.
ghost use Rattle.std.specs.Prelude.{◌≡◌};
ghost use Rattle.nodes.specs.Code.Cells.{memory};
ghost use Rattle.nodes.specs.Layout.{key_limit};
ghost use Rattle.trees.specs.Lookup.{lookup};
ghost use Rattle.cells.specs.Optional.{option_of};
ghost use Rattle.trees.specs.Code.Coded.{Grown};

use nodes::memory::Cells;
use nodes::step::ChildStep;

// Follows the key's characters from a word; a step that finds no child ends the look-up at once.
pub fn look_up(cells: &Cells, word: u32, key: &[u8]) -> Option<u32>
    requires { Grown cells.now.layout (memory cells.now) key_limit word }
    ensures { option_of result ≡ lookup cells.now.layout (memory cells.now) word key.now }
{
    let mut node = word;
    for i in 0..key.len() {
        let ChildStep::Found(next) = cells.child_step(node, key[i]) else {
            return None;
        };
        node = next;
    }
    cells.value_at(node)
}
