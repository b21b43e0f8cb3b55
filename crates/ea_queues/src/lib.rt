//! The queues of instances, and what is left of their walks, in plain memory: a cell for each node
//! knows the next older one, and whether the node is linked to it. No step takes memory, and each
//! takes constant time.
#![tactic(auto)]

mod cells;
mod queues;

pub use queues::Queues;
