// An insertion as a list of stores.
#![tactic(auto)]

mod listing;
pub mod write_list;
