//! Moments at which each item of a sound state holds, computed from the definitions of the machine
//! alone.

pub mod entries;
pub mod homeward;
pub mod large;
pub mod queues;
pub mod tries;
