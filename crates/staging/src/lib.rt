// Single cells written into the stage of a call.
#![tactic(auto)]

pub mod new_cells;
pub mod order;
pub mod sparse;
pub mod stage;
pub mod task;
