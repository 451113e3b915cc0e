// Sparse cells in the stage, written anew: their characters in rising order.
ghost use Rattle.std.specs.Prelude.{◌≡◌, List, ℕ, ◌≤◌, ◌<◌, length};
ghost use Rattle.cells.specs.Memory.{memory_of};
ghost use Rattle.removals.specs.Code.KeptChildren.{Held};
ghost use Rattle.removals.specs.RisingCell.{with_characters, rising_order, rising_cell};
ghost use Rattle.staging.specs.Code.Stage.{stage_cells, Put};

use staging::new_cells::put_words;
use staging::sparse::put_order;
use staging::stage::{STAGE_SIZE, put_byte};

// The order word of two to six positions that follow each other.
#[tactic(auto, unfolding(crate::specs::RisingCell::rising_order, order_words::specs::Digits::encode))]
fn rising_order(count: usize) -> u16
    requires { (2 ≤ count) × (count ≤ 6) }
    ensures { result ≡ rising_order count }
{
    match count {
        2 => 0x0006,
        3 => 0x004E,
        4 => 0x02D6,
        5 => 0x1716,
        _ => 0xAEF6,
    }
}

// Writes characters side by side from the first position on.
fn put_characters(stage: &mut [u8; STAGE_SIZE], at: usize, characters: &[u8])
    requires { (at < stage_cells) × (length characters.now ≤ 6) }
    ensures { Put stage.old stage.new at (with_characters characters.now 0 (memory_of stage.old at)) }
{
    for (k, &character) in characters.iter().enumerate() {
        put_byte(stage, at, 24 + k, character);
    }
}

// A sparse cell of so many characters, two to six, which rise, and their child words. No `KeptChildren`, which holds arrays of six: it takes
// slices of any length.
pub fn put_rising(
    stage: &mut [u8; STAGE_SIZE],
    at: usize,
    characters: &[u8],
    words: &[u32],
    count: usize,
)
    requires place { at < stage_cells }
    requires least { 2 ≤ count }
    requires most { count ≤ 6 }
    requires named { count ≤ length characters.now }
    requires linked { count ≤ length words.now }
    ensures { (child : ℕ → ℕ) (list : List ℕ) → Held child list characters.now words.now count → Put stage.old stage.new at (rising_cell child list) }
{
    put_words(stage, at, &words[..count], 0);
    put_characters(stage, at, &characters[..count]);
    put_order(stage, at, rising_order(count));
}
