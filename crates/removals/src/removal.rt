// The build of one removal: down by the key, and up again over what is left.
ghost use Rattle.std.specs.Prelude.{◌≡◌, ◌≤◌, length};
ghost use Rattle.nodes.specs.Layout.{key_limit};
ghost use Rattle.removals.specs.Removal.{left_copy, removed_at, removal};
ghost use Rattle.staging.specs.Code.Building.{numbering, memory};
ghost use Rattle.trees.specs.Code.Coded.{Grown};
ghost use Rattle.updates.specs.Code.Made.{built};

use crate::left::left_copy;
use staging::stage::BuildState;
use staging::task::Task;
use updates::build::word_aside;
use updates::built::Build;
use updates::path::{Change, copy_path};

// The value at the key's end gone, and each node above it with its child changed or lost.
#[derive(Clone, Copy)]
struct WithoutValue;

impl Change for WithoutValue {
    ghost copied = { λ change task. left_copy task.free.layout (numbering task.free) (memory task) };

    ghost ended = { λ change task. removed_at task.free.layout (memory task) };

    // The child changed or lost, the value put back over what is left.
    fn copy_node(&self, task: &Task, so_far: &mut Build, word: u32, x: u8) {
        left_copy(task, so_far, word, x);
    }

    // A leaf becomes NONE, a prefix its linked node.
    #[tactic(auto, unfolding(staging::specs::Code::Stage::staged))]
    fn at_end(&self, task: &Task, so_far: &mut Build, word: u32) {
        so_far.made = BuildState {
            word: word_aside(&task.cells(), word),
            own: false,
            count: 0,
        };
    }
}

// The path of a key copied into the stage, without the value at its end.
#[tactic(auto, unfolding(crate::specs::Removal::removal))]
pub fn removal(task: &Task, so_far: &mut Build, key: &[u8], word: u32)
    requires size { length key.now ≤ key_limit }
    requires tree { Grown task.now.free.layout (memory task.now) key_limit word }
    ensures { built so_far.new ≡ removal task.now.free.layout (numbering task.now.free) (memory task.now) word key.now }
{
    copy_path(&WithoutValue, task, so_far, key, word);
}
