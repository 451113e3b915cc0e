// One line for what a call answers, its name first.
use crate::lines;
use blocks::answer::{Answer, answer_number};
use std::io;

// How many cells a call allocated, 0 where it was refused.
pub fn count(rt: &impl Print, name: &[u8], answer: Answer<u32>) -> io::Result<()> {
    lines::number(rt, name, answer.unwrap_or(0))
}

// The answer number of a call, whatever it gives where it is done.
pub fn answer<T: Copy>(rt: &impl Print, name: &[u8], answer: Answer<T>) -> io::Result<()> {
    lines::number(rt, name, answer_number(answer) as u32)
}
