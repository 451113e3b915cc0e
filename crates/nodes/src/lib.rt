// Pointers and nodes: what one word names, read from its cells.
#![tactic(auto)]

pub mod chains;
pub mod layout;
pub mod least;
pub mod memory;
pub mod pointer;
pub mod prefix;
pub mod sparse;
pub mod split;
pub mod step;
pub mod value;
pub mod words;
