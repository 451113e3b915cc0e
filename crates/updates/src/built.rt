// What a build has made so far, with the stage in which its cells stand.
ghost use Rattle.std.specs.Prelude.{◌≡◌, []};
ghost use Rattle.updates.specs.Built.{unowned};
ghost use Rattle.updates.specs.Code.Made.{built};

use staging::stage::{BuildState, STAGE_SIZE};

// Handed down by `&mut` while a call builds, and read by the commit.
#[derive(Drop)]
pub struct Build {
    pub made: BuildState,
    pub stage: [u8; STAGE_SIZE],
}

impl Build {
    ghost use Rattle.updates.specs.Code.Made.{cells_of};

    // The new node is one that names no cell of this call; what is staged stays.
    pub fn set_unowned(&mut self, word: u32)
        ensures { built self.new ≡ unowned word (cells_of self.old) }
    {
        self.made.word = word;
        self.made.own = false;
    }
}

// NONE, and no cell: what a build begins from.
#[tactic(auto, unfolding(staging::specs::Code::Stage::staged))]
pub fn nothing_built() -> Build
    ensures { built result ≡ unowned 0 [] }
{
    let made = BuildState {
        word: 0,
        own: false,
        count: 0,
    };
    let stage = [0u8; STAGE_SIZE];
    Build { made, stage }
}
