// A node that loses a child: by how many it keeps, NONE, a chain, a sparse cell or the split without it.
ghost use Rattle.std.specs.Prelude.{◌≡◌};
ghost use Rattle.std.proofs.Math.Option.{some};
ghost use Rattle.nodes.specs.Node.{Node, read};
ghost use Rattle.nodes.specs.Pointer.{pointer};
ghost use Rattle.nodes.specs.Split.{split_cell};
ghost use Rattle.removals.specs.LoseChild.{split_stays, lose_child};
ghost use Rattle.staging.specs.Code.Building.{numbering, memory};
ghost use Rattle.updates.specs.Code.Made.{built, cells_of};
ghost use Rattle.updates.specs.Code.Staged.{Fitting};

use crate::children::kept_children;
use crate::rising::put_rising;
use crate::split_left::split_left;
use nodes::pointer::Pointer;
use staging::task::Task;
use updates::built::Build;
use updates::chain::new_chain;

// The node without the child, where it stays a split.
#[tactic(auto, unfolding(crate::specs::LoseChild::split_stays, nodes::specs::Split::split_cell))]
fn split_stays(task: &Task, so_far: &mut Build, word: u32, x: u8)
    requires read { (node : Node) × (read task.now.free.layout (memory task.now) word ≡ some node) }
    requires room { Fitting (split_stays (numbering task.now.free) (memory task.now) (split_cell (pointer task.now.free.layout word)) x (cells_of so_far.old)) }
    ensures { built so_far.new
        ≡ split_stays (numbering task.now.free) (memory task.now) (split_cell (pointer task.now.free.layout word)) x (cells_of so_far.old) }
{
    match task.cells().pointer(word) {
        Pointer::Split(number) => split_left(task, so_far, number, x),
        _ => so_far.set_unowned(0),
    }
}

// A node with no value, without the child of a character.
#[tactic(auto, using(crate::proofs::Stage::LostChildren::lost_ways))]
pub fn lose_child(task: &Task, so_far: &mut Build, word: u32, x: u8)
    requires read { (node : Node) × (read task.now.free.layout (memory task.now) word ≡ some node) }
    requires room { Fitting (lose_child task.now.free.layout (numbering task.now.free) (memory task.now) (pointer task.now.free.layout word) x (cells_of so_far.old)) }
    ensures { built so_far.new
        ≡ lose_child task.now.free.layout (numbering task.now.free) (memory task.now) (pointer task.now.free.layout word) x (cells_of so_far.old) }
{
    let Some(kept) = kept_children(&task.cells(), word, x) else {
        split_stays(task, so_far, word, x);
        return;
    };
    match kept.count {
        0 => so_far.set_unowned(0),
        1 => new_chain(&task.free, so_far, kept.characters[0], kept.words[0]),
        _ => {
            let count = so_far.made.count;
            put_rising(
                &mut so_far.stage,
                count,
                &kept.characters,
                &kept.words,
                kept.count,
            );
            so_far.made = task.free.allocated_as(30, count);
        }
    }
}
