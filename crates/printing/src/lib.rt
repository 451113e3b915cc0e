// What the programs that run samples write. Each function answers the I/O error of the write that failed, and no other; a part of its line
// may then have been written, and nothing that was lent to it is altered.
#![tactic(auto)]

pub mod answers;
pub mod lines;
