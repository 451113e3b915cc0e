// Dosing: which temperature a product may be applied at, and how much of it a bead takes.
#![tactic(auto)]

pub mod sheet;
pub mod temperature;
pub mod verdict;
