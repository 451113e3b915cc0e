// The staged build of a removal.
#![tactic(auto)]

pub mod children;
pub mod kept_children;
pub mod left;
pub mod lose_child;
pub mod removal;
pub mod rising;
pub mod split_left;
