//! The pages of a region, kept as the sorted list of its taken segments. The free runs are what the
//! segments leave free, so neighbouring free pages are always one run.
#![tactic(auto)]

pub mod region;
mod walks;

pub use region::Region;
