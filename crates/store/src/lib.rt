// The calls that change a block.
#![tactic(auto)]

pub mod committing;
pub mod formatting;
pub mod free_cells;
pub mod inserting;
mod judging;
pub mod removing;
