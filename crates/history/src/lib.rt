// Lists of calls beside the ledger, and a function that runs such a list.
#![tactic(auto)]

pub mod runner;
