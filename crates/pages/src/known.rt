// The least child of a node that obeys its rules, as every node of a sound block does: nothing is judged again.
// So it is no twin of the walk in `nodes::least`, which judges each cell that it comes through and takes the time for it.
ghost use Rattle.std.specs.Prelude.{◌≡◌, ◌≢◌, ◌-◌, ◌<◌};
ghost use Rattle.std.proofs.Math.Option.{none};
ghost use Rattle.nodes.specs.Code.Cells.{memory, Inside};
ghost use Rattle.nodes.specs.Code.Coded.{pointer_of, least_of};
ghost use Rattle.nodes.specs.Code.LeastChild.{first_step, least_step};
ghost use Rattle.nodes.specs.Code.Step.{split_step, plain_step};
ghost use Rattle.nodes.specs.Node.{plain, read};
ghost use Rattle.nodes.specs.Pointer.Pointer.{split};

use cells::word_at;
use nodes::least::{Least, chain_least, sparse_known};
use nodes::memory::Cells;
use nodes::pointer::Pointer;

// The least in a split: a mid or an end that is absent is passed at once.
fn split_known(cells: &Cells, number: usize, from: usize) -> Least
    requires { (number < cells.now.layout.cells) × (from < 256) × (plain cells.now.layout (memory cells.now) (split number) ≢ none) }
    ensures { least_of result ≡ first_step (split_step cells.now.layout (memory cells.now) number) (256 - from) from }
{
    let head = cells.cell(number);
    let mut x = from;
    // No `for`: it passes 64 or 8 characters at once.
    while x < 256 {
        let mid = word_at(head, 16 + 4 * (x / 64));
        if mid == 0 {
            x = (x / 64 + 1) * 64;
        } else {
            let end = word_at(cells.cell((mid / 32) as usize), 4 * (x / 8 % 8));
            if end == 0 {
                x = (x / 8 + 1) * 8;
            } else {
                let child = word_at(cells.cell((end / 32) as usize), 4 * (x % 8));
                if child != 0 {
                    return Least::Found(x as u8, child);
                }
                x += 1;
            }
        }
    }
    Least::Missing
}

// The least at a chain, sparse or split.
#[tactic(auto, using(crate::proofs::Walking::KnownNode::known_sparse, crate::proofs::Walking::KnownNode::known_split))]
fn plain_known(cells: &Cells, pointer: Pointer, from: usize) -> Least
    requires { (from < 256) × Inside cells.now.layout pointer × (plain cells.now.layout (memory cells.now) (pointer_of pointer) ≢ none) }
    ensures { least_of result ≡ first_step (plain_step cells.now.layout (memory cells.now) (pointer_of pointer)) (256 - from) from }
{
    match pointer {
        Pointer::Chain(number, place) => chain_least(cells.cell(number), number, place, from),
        Pointer::Sparse(number) => sparse_known(cells.cell(number), from),
        Pointer::Split(number) => split_known(cells, number, from),
        _ => Least::Broken,
    }
}

// The least character from one on that the node a word names has a child for; a prefix has the children of the node linked.
pub fn known_child(cells: &Cells, word: u32, from: usize) -> Least
    requires { read cells.now.layout (memory cells.now) word ≢ none }
    ensures { least_of result ≡ least_step cells.now.layout (memory cells.now) word from }
{
    if 256 <= from {
        return Least::Missing;
    }
    let pointer = cells.pointer(word);
    match pointer {
        Pointer::Nothing => Least::Missing,
        Pointer::Leaf(_) => Least::Missing,
        Pointer::Prefix(number) => plain_known(cells, cells.pointer(cells.link_at(number)), from),
        _ => plain_known(cells, pointer, from),
    }
}
