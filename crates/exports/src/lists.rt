// A list of calls, encoded in bytes and run on a block.
ghost use Rattle.std.specs.Prelude.{◌≡◌};
ghost use Rattle.exports.specs.Code.RunNumbers.{run_numbers};

use history::runner::run_calls;

// Makes a block fresh, of an edition, and runs the encoded calls on it, each answer number into the next answer byte: how the
// run ended and how many calls it made.
pub fn exports_run_calls(
    block: &mut [u8],
    edition: u32,
    calls: &[u8],
    answers: &mut [u8],
    count: &mut usize,
) -> u8
    ensures { run_numbers block.old edition calls.now answers.old ≡ record { ended = result; count = count.new; block = block.new; answers = answers.new } }
{
    match run_calls(block, edition, calls, answers) {
        Ok((ran, stop)) => {
            *count = ran;
            stop as u8
        }
        Err(refusal) => {
            *count = 0;
            refusal.into()
        }
    }
}
