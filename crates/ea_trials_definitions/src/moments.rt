//! Moments of worked runs: what stands after given turns, computed from the definitions of the
//! machine alone. Each value was worked out by hand.

pub mod abandoning;
pub mod owns;
pub mod queues;
pub mod returning;
pub mod stopping;
pub mod tries;
