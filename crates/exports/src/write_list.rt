// The list of stores of an insertion.
ghost use Rattle.std.specs.Prelude.{◌≡◌};
ghost use Rattle.write_lists.specs.WriteList.{write_list};

use blocks::answer::answer_number;
use write_lists::write_list::write_list;

// Writes an insertion as records of stores into a list buffer, for the memory driver, and counts them; the block is only read.
pub fn register_write_list(
    block: &[u8],
    key: &[u8],
    value: u32,
    list: &mut [u8],
    records: &mut u32,
) -> u8
    ensures { write_list block.now key.now value list.old ≡ record { answer = result; records = records.new; list = list.new } }
{
    let answer = write_list(block, key, value, list);
    *records = answer.unwrap_or(0);
    answer_number(answer)
}
