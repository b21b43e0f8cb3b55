//! What schedulers share, in plain memory, where one step is taken after another: the queues of
//! instances, what is left of their walks, the names that are given, and where carriers are.
#![tactic(auto)]

mod carriers;
mod counted;
mod mem;

pub use mem::MemShared;
