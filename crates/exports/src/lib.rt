// The calls over numbers and bytes that firmware does not have, for service tools and memory drivers, and for tests the runner of a
// list of calls. The crate exports_c exports them to C.
#![tactic(auto)]

pub mod calls;
pub mod lists;
pub mod page;
pub mod write_list;
