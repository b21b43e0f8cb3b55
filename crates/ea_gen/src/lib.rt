//! The generator of traces: from a seed, a number of schedulers and a count of operations to the
//! text of each scheduler.
#![tactic(auto)]

mod hand;
mod kind;
mod maker;
mod numbers;
mod section;
mod texts;
mod trace;

pub use trace::make_trace;
