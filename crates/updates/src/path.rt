// The path of a key copied, for any change to one key: down by the key, and up again node by node.
ghost use Rattle.std.specs.Prelude.{◌≡◌, List, ℕ, ◌+◌, ◌*◌, ◌≤◌, length};
ghost use Rattle.std.proofs.Math.Option.{some};
ghost use Rattle.nodes.specs.Layout.{key_limit};
ghost use Rattle.nodes.specs.Node.{Node, read};
ghost use Rattle.staging.specs.Code.Building.{memory};
ghost use Rattle.staging.specs.declared.task.Task.{Task};
ghost use Rattle.trees.specs.Code.Coded.{Grown};
ghost use Rattle.updates.specs.Build.{path_copy};
ghost use Rattle.updates.specs.Built.{Built};
ghost use Rattle.updates.specs.Code.Made.{built};
ghost use Rattle.updates.specs.Code.Staged.{Fitting};

use crate::build::descend;
use crate::built::Build;
use nodes::layout::KEY_LIMIT;
use staging::task::Task;

// What a change makes of a node on the path, over what is built below it, and of the word at the key's end.
pub trait Change {
    ghost copied: { Self → Task → ℕ → ℕ → Built → Built };

    ghost ended: { Self → Task → ℕ → Built };

    // One node of the path.
    fn copy_node(&self, task: &Task, so_far: &mut Build, word: u32, x: u8)
        requires read { (node : Node) × (read task.now.free.layout (memory task.now) word ≡ some node) }
        requires room { Fitting (copied self.now task.now word x (built so_far.old)) }
        ensures { built so_far.new ≡ copied self.now task.now word x (built so_far.old) };

    // The word at the key's end.
    fn at_end(&self, task: &Task, so_far: &mut Build, word: u32)
        ensures { built so_far.new ≡ ended self.now task.now word };
}

// The path of a key copied into the stage, by the rules of a change.
pub fn copy_path<C: Change>(change: &C, task: &Task, so_far: &mut Build, key: &[u8], word: u32)
    requires size { length key.now ≤ key_limit }
    requires tree { Grown task.now.free.layout (memory task.now) key_limit word }
    requires bounded { (w : ℕ) (k : List ℕ)
        → length (path_copy task.now.free.layout (memory task.now) (C.copied change.now task.now) (C.ended change.now task.now) w k).cells ≤ 4 * length k + 10 }
    ensures { built so_far.new
        ≡ path_copy task.now.free.layout (memory task.now) (C.copied change.now task.now) (C.ended change.now task.now) word key.now }
{
    let mut path = [0u32; KEY_LIMIT];
    let end = descend(&task.cells(), key, word, &mut path);
    change.at_end(task, so_far, end);
    for i in (0..key.len()).rev() {
        change.copy_node(task, so_far, path[i], key[i]);
    }
}
