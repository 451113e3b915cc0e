// A page of a block.
ghost use Rattle.std.specs.Prelude.{◌≡◌};
ghost use Rattle.exports.specs.PageNumbers.{page_numbers};

use blocks::answer::answer_number;
use pages::page::{PageEnd, page};

// Writes the records after a key into a buffer, in order: the records written, the bytes used and whether more remain. Of a buffer
// longer than 4,294,967,295 bytes it takes the first so many.
pub fn register_page(
    block: &[u8],
    key: &[u8],
    buffer: &mut [u8],
    records: &mut u32,
    used: &mut u32,
    more: &mut u32,
) -> u8
    ensures { page_numbers block.now key.now buffer.old ≡ record { answer = result; records = records.new; used = used.new; more = more.new; buffer = buffer.new } }
{
    let end = buffer.len().min(4294967295);
    let answer = page(block, key, &mut buffer[..end]);
    let page = answer.unwrap_or(PageEnd {
        records: 0,
        used: 0,
        more: false,
    });
    *records = page.records as u32;
    *used = page.used as u32;
    *more = u32::from(page.more);
    answer_number(answer)
}
