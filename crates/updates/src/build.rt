// The build of one insertion: down by the key, and up again with each node's child set.
ghost use Rattle.std.specs.Prelude.{◌≡◌, ◌≤◌, length};
ghost use Rattle.std.proofs.Math.Option.{some};
ghost use Rattle.cells.specs.Memory.{memory_of};
ghost use Rattle.nodes.specs.Layout.{key_limit};
ghost use Rattle.nodes.specs.Node.{Node, read};
ghost use Rattle.nodes.specs.Pointer.{pointer};
ghost use Rattle.staging.specs.Code.Building.{numbering, memory};
ghost use Rattle.trees.specs.Code.Coded.{Grown};
ghost use Rattle.updates.specs.Build.{word_aside, child_of, node_copy, inserted_at, build};
ghost use Rattle.updates.specs.Code.Made.{built};
ghost use Rattle.updates.specs.Code.Staged.{Fitting, reached, Path};
ghost use Rattle.updates.specs.SetChild.{set_child};

use crate::built::Build;
use crate::chain::{chain_over, chain_set};
use crate::path::{Change, copy_path};
use crate::prefix::{at_end, put_back};
use crate::sparse_set::sparse_set;
use crate::split::split_set;
use nodes::layout::KEY_LIMIT;
use nodes::memory::Cells;
use nodes::pointer::Pointer;
use nodes::step::ChildStep;
use staging::task::Task;

// The child word of a character of a node that is valid; NONE, where the rest of a new key goes on, is known to have none.
#[tactic(auto, using(crate::proofs::Stage::StagedBuild::none_childless, crate::proofs::Stage::StagedBuild::child_none))]
fn child_word(cells: &Cells, word: u32, x: u8) -> u32
    requires { (node : Node) × (read cells.now.layout (memory_of cells.now.bytes.now) word ≡ some node) }
    ensures { result ≡ child_of (read cells.now.layout (memory_of cells.now.bytes.now) word) x }
{
    if word == 0 {
        return 0;
    }
    match cells.child_step(word, x) {
        ChildStep::Found(child) => child,
        _ => 0,
    }
}

// A node's word without its value: NONE for a leaf, the node linked for a prefix.
#[tactic(auto, unfolding(crate::specs::Build::word_aside))]
pub fn word_aside(cells: &Cells, word: u32) -> u32
    ensures { result ≡ word_aside cells.now.layout (memory_of cells.now.bytes.now) (pointer cells.now.layout word) word }
{
    match cells.pointer(word) {
        Pointer::Leaf(_) => 0,
        Pointer::Prefix(number) => cells.link_at(number),
        _ => word,
    }
}

// A child of a node with no value set, by the node's kind.
#[tactic(auto, unfolding(crate::specs::SetChild::set_child))]
pub fn set_child(task: &Task, so_far: &mut Build, word: u32, x: u8)
    requires read { (node : Node) × (read task.now.free.layout (memory task.now) word ≡ some node) }
    requires room { Fitting (set_child task.now.free.layout (numbering task.now.free) (memory task.now) (pointer task.now.free.layout word) x (built so_far.old)) }
    ensures { built so_far.new
        ≡ set_child task.now.free.layout (numbering task.now.free) (memory task.now) (pointer task.now.free.layout word) x (built so_far.old) }
{
    match task.cells().pointer(word) {
        Pointer::Nothing | Pointer::Leaf(_) => chain_over(&task.free, so_far, x),
        Pointer::Chain(number, place) => chain_set(task, so_far, number, place, x),
        Pointer::Split(number) => split_set(task, so_far, number, x),
        Pointer::Sparse(number) => sparse_set(&task.free, task.block, so_far, number, x),
        _ => {}
    }
}

// Down by a key: the word of the node before each character, and the word at the key's end.
pub fn descend(cells: &Cells, key: &[u8], word: u32, path: &mut [u32; KEY_LIMIT]) -> u32
    requires size { length key.now ≤ key_limit }
    requires tree { Grown cells.now.layout (memory_of cells.now.bytes.now) key_limit word }
    ensures end { result ≡ reached cells.now.layout (memory_of cells.now.bytes.now) word key.now (length key.now) }
    ensures path { Path cells.now.layout (memory_of cells.now.bytes.now) word key.now (length key.now) path.new }
{
    let mut at = word;
    for i in 0..key.len() {
        path[i] = at;
        at = child_word(cells, at, key[i]);
    }
    at
}

// A value put at the key's end, and each node above it with its child set.
#[derive(Clone, Copy)]
struct Insertion {
    value: u32,
}

impl Change for Insertion {
    ghost copied = { λ change task. node_copy task.free.layout (numbering task.free) (memory task) };

    ghost ended = { λ change task. inserted_at task.free.layout (numbering task.free) (memory task) change.value };

    // The node's value set aside, its child set, the value put back.
    #[tactic(auto, using(crate::proofs::Stage::StagedDescent::copy_ways))]
    fn copy_node(&self, task: &Task, so_far: &mut Build, word: u32, x: u8) {
        let cells = task.cells();
        let bare = word_aside(&cells, word);
        set_child(task, so_far, bare, x);
        let held = cells.value_at(word);
        put_back(&task.free, so_far, held);
    }

    // The value at the key's end.
    fn at_end(&self, task: &Task, so_far: &mut Build, word: u32) {
        at_end(task, so_far, word, self.value);
    }
}

// The path of a key copied into the stage, with the value at its end.
#[tactic(auto, unfolding(crate::specs::Build::build))]
pub fn build(task: &Task, so_far: &mut Build, key: &[u8], word: u32, value: u32)
    requires size { length key.now ≤ key_limit }
    requires tree { Grown task.now.free.layout (memory task.now) key_limit word }
    ensures { built so_far.new ≡ build task.now.free.layout (numbering task.now.free) (memory task.now) word key.now value }
{
    copy_path(&Insertion { value }, task, so_far, key, word);
}
