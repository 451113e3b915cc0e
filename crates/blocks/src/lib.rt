// What a block is and shows: its trailer, whether it is sound, and the calls that only read it.
#![tactic(auto)]

pub mod answer;
pub mod block;
pub mod get;
pub mod key;
pub mod next;
pub mod trailer_fields;
pub mod trailer_writes;
pub mod validate;
