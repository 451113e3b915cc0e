// What the calls answer.
ghost use Rattle.std.specs.Prelude.{◌≡◌};
ghost use Rattle.blocks.specs.Answers.{refusal_number, answer_number, change_number, count_number};

use nodes::layout::KEY_LIMIT;

// Why a call did nothing, in the order of the answer numbers.
#[derive(Clone, Copy)]
pub enum Refusal {
    BadSize = 1,
    Unsound = 2,
    BadKey = 3,
    BadValue = 4,
    BadSlot = 5,
    SlotNotInUse = 6,
    NoRoom = 7,
    BadSheet = 8,
    BadReading = 9,
    BadToday = 10,
    Missing = 11,
    HeldNoDate = 12,
    Expired = 13,
    OutsideGate = 14,
    ShortBuffer = 15,
}

// What a call answers: what it gives, or why it did nothing.
pub type Answer<T> = Result<T, Refusal>;

// A key that was found; zero past its size, since the call for C gives all 48 bytes.
#[derive(Clone, Copy)]
pub struct NextKey {
    pub size: usize,
    pub key: [u8; KEY_LIMIT],
}

impl From<Refusal> for u8 {
    ghost use Rattle.blocks.specs.Answers.{refusal_number};

    ghost from_gives = { λ refusal number. number ≡ refusal_number refusal };

    // The answer number of a refusal.
    fn from(refusal: Refusal) -> u8 {
        number(refusal)
    }
}

// The answer number of a refusal, 1 to 15; the conversion above gives the same.
pub fn number(refusal: Refusal) -> u8
    ensures { result ≡ refusal_number refusal }
{
    refusal as u8
}

// The answer number of a call, whatever it gives where it is done.
pub fn answer_number<T: Copy>(answer: Answer<T>) -> u8
    ensures { result ≡ answer_number answer }
{
    match answer {
        Ok(_) => 0,
        Err(refusal) => refusal.into(),
    }
}

// The answer number of a call that changes a block, or only judges it.
#[tactic(auto, using(crate::proofs::RefusalSteps::change_answer))]
pub fn change_number(answer: Answer<()>) -> u8
    ensures { result ≡ change_number answer }
{
    answer_number(answer)
}

// The answer number of a call that counts the cells it allocated.
#[tactic(auto, using(crate::proofs::RefusalSteps::count_answer))]
pub fn count_number(answer: Answer<u32>) -> u8
    ensures { result ≡ count_number answer }
{
    answer_number(answer)
}
