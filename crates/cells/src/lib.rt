// Bytes, words and 32-byte cells of a block.
#![tactic(auto)]

ghost use Rattle.std.specs.Prelude.{◌≡◌, ◌+◌, ◌-◌, ◌*◌, ◌≤◌, length};
ghost use Rattle.cells.specs.Word.{word_at, with_word};
ghost use Rattle.cells.specs.Memory.{memory_of};

// The word at a byte position, highest byte first.
#[tactic(auto, unfolding(crate::specs::Word::word_at))]
pub fn word_at(bytes: &[u8], at: usize) -> u32
    requires { at + 4 ≤ length bytes.now }
    ensures { result ≡ word_at bytes.now at }
{
    u32::from_be_bytes([bytes[at], bytes[at + 1], bytes[at + 2], bytes[at + 3]])
}

// Writes a word at a byte position, highest byte first.
#[tactic(auto, using(crate::proofs::Words::word_laid))]
pub fn put_word(bytes: &mut [u8], at: usize, word: u32)
    requires { at + 4 ≤ length bytes.old }
    ensures { bytes.new ≡ with_word bytes.old at word }
{
    bytes[at..at + 4].copy_from_slice(&word.to_be_bytes());
}

// The bytes of a cell.
pub type Cell = [u8; 32];

// The cell of a number.
pub fn cell(block: &[u8], number: usize) -> &Cell
    requires { number * 32 + 32 ≤ length block.now }
    ensures { result.now ≡ memory_of block.now number }
{
    let at = number * 32;
    block[at..at + 32].first_chunk::<32>().unwrap()
}

// A word with every bit inverted.
pub fn inverted(word: u32) -> u32
    ensures { result ≡ 4294967295 - word }
{
    !word
}
