// One node of the path of a removal: its value set aside, its child changed or lost, the value put back over what is left.
ghost use Rattle.std.specs.Prelude.{◌≡◌};
ghost use Rattle.std.proofs.Math.Option.{some};
ghost use Rattle.cells.specs.Optional.{option_of};
ghost use Rattle.nodes.specs.Node.{Node, read};
ghost use Rattle.nodes.specs.Pointer.{pointer};
ghost use Rattle.removals.specs.Removal.{change_child, put_back_left, left_copy};
ghost use Rattle.staging.specs.Code.Building.{numbering, memory};
ghost use Rattle.updates.specs.Code.Made.{built};
ghost use Rattle.updates.specs.Code.Staged.{Fitting};

use crate::lose_child::lose_child;
use nodes::pointer::leaf_word;
use staging::task::{FreeCells, Task};
use updates::build::{set_child, word_aside};
use updates::built::Build;
use updates::prefix::put_back;

// A child that is still there is set; where it is NONE the node loses it.
#[tactic(auto, unfolding(crate::specs::Removal::change_child))]
fn change_child(task: &Task, so_far: &mut Build, word: u32, x: u8)
    requires read { (node : Node) × (read task.now.free.layout (memory task.now) word ≡ some node) }
    requires room { Fitting (change_child task.now.free.layout (numbering task.now.free) (memory task.now) (pointer task.now.free.layout word) x (built so_far.old)) }
    ensures { built so_far.new
        ≡ change_child task.now.free.layout (numbering task.now.free) (memory task.now) (pointer task.now.free.layout word) x (built so_far.old) }
{
    if so_far.made.word != 0 {
        set_child(task, so_far, word, x);
    } else {
        lose_child(task, so_far, word, x);
    }
}

// A value over what is left of its node: over NONE it becomes a leaf.
#[tactic(auto, unfolding(crate::specs::Removal::put_back_left))]
fn put_back_left(free: &FreeCells, so_far: &mut Build, held: Option<u32>)
    requires { Fitting (put_back_left free.now.layout (numbering free.now) (option_of held) (built so_far.old)) }
    ensures { built so_far.new ≡ put_back_left free.now.layout (numbering free.now) (option_of held) (built so_far.old) }
{
    let Some(value) = held else {
        return;
    };
    if so_far.made.word == 0 {
        so_far.set_unowned(leaf_word(value));
    } else {
        put_back(free, so_far, held);
    }
}

// One node of the path copied into the stage, over what is left below it.
#[tactic(auto, using(crate::proofs::Stage::LeftDescent::left_ways))]
pub fn left_copy(task: &Task, so_far: &mut Build, word: u32, x: u8)
    requires read { (node : Node) × (read task.now.free.layout (memory task.now) word ≡ some node) }
    requires room { Fitting (left_copy task.now.free.layout (numbering task.now.free) (memory task.now) word x (built so_far.old)) }
    ensures { built so_far.new ≡ left_copy task.now.free.layout (numbering task.now.free) (memory task.now) word x (built so_far.old) }
{
    let cells = task.cells();
    let bare = word_aside(&cells, word);
    change_child(task, so_far, bare, x);
    let held = cells.value_at(word);
    put_back_left(&task.free, so_far, held);
}
