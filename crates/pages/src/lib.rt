// Pages of a block: the records of the keys after a given one, in order, into a lent buffer.
#![tactic(auto)]

pub mod known;
pub mod page;
pub mod record;
pub mod walk;
