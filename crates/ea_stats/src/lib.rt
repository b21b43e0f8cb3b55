//! The figures of an instance's carriers over a run: as they are, the greatest since the last
//! report, and the greatest ever.
#![tactic(auto)]

mod statistics;

pub use statistics::Stats;
