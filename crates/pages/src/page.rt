// A page of a block.
ghost use Rattle.std.specs.Prelude.{◌≡◌};
ghost use Rattle.pages.specs.Answers.{page_outcome};
ghost use Rattle.pages.specs.Page.{page};

use crate::record::Progress;
use crate::walk::print_after;
use blocks::answer::{Answer, Refusal};
use blocks::key::is_over_long;
use blocks::validate::judged;
use nodes::layout::KEY_LIMIT;

// How a page ended: the records written, the bytes used and whether more remain.
#[derive(Clone, Copy)]
pub struct PageEnd {
    pub records: usize,
    pub used: usize,
    pub more: bool,
}

// Writes the records of the keys after a given one, in order, until the next does not fit.
pub fn page(block: &[u8], key: &[u8], buffer: &mut [u8]) -> Answer<PageEnd>
    ensures { page block.now key.now buffer.old ≡ page_outcome result buffer.new }
{
    let block = judged(block)?.block;
    if is_over_long(key) {
        return Err(Refusal::BadKey);
    }
    if buffer.len() < 1 + KEY_LIMIT + 4 {
        return Err(Refusal::ShortBuffer);
    }
    let mut path = [0u8; KEY_LIMIT];
    let start = Progress {
        records: 0,
        used: 0,
        full: false,
    };
    let end = print_after(
        &block.cells(),
        block.root_word(),
        key,
        0,
        &mut path,
        buffer,
        start,
    );
    Ok(PageEnd {
        records: end.records,
        used: end.used,
        more: end.full,
    })
}
