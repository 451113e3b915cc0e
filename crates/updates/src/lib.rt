// The staged build of a change to one key: the path of the key copied, with a rule at its end.
#![tactic(auto)]

pub mod build;
pub mod built;
pub mod chain;
pub mod path;
pub mod prefix;
pub mod rows;
pub mod sparse_set;
pub mod split;
