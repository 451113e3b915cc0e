// The tree of one root.
#![tactic(auto)]

pub mod lookup;
pub mod next_key;
pub mod stamps;
pub mod validate;
