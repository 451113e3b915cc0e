// One record of a page.
ghost use Rattle.std.specs.Prelude.{◌≡◌, ◌≤◌, length, take};
ghost use Rattle.nodes.specs.Layout.{key_limit};
ghost use Rattle.trees.specs.Entries.{entry_of};
ghost use Rattle.pages.specs.Code.Progress.{written_of, Open, put_record};

use cells::put_word;
use nodes::layout::KEY_LIMIT;

// What a page has so far: its records, the bytes that they use, and whether one did not fit.
#[derive(Clone, Copy)]
pub struct Progress {
    pub records: usize,
    pub used: usize,
    pub full: bool,
}

// Writes the record of the key that stands in the first bytes of a path, if it fits: its length, the key, its value as a word.
pub fn put_record(
    buffer: &mut [u8],
    progress: Progress,
    path: &[u8; KEY_LIMIT],
    size: usize,
    value: u32,
) -> Progress
    requires { (size ≤ key_limit) × Open progress buffer.old }
    ensures { written_of result buffer.new ≡ put_record (written_of progress buffer.old) (entry_of (take size path.now) value) }
{
    let start = progress.used;
    let key: &[u8] = path;
    if buffer.len() - start < size + 5 {
        return Progress {
            records: progress.records,
            used: start,
            full: true,
        };
    }
    buffer[start] = size as u8;
    // No `for` and no `copy_from_slice`: both compile to a call of memmove, which C would have to provide.
    let mut i: usize = 0;
    while i < size {
        buffer[start + 1 + i] = key[i];
        i += 1;
    }
    put_word(buffer, start + 1 + size, value);
    Progress {
        records: progress.records + 1,
        used: start + size + 5,
        full: false,
    }
}
