//! The run of a given schedule: its schedulers take their turns on plain memory, one turn at a time
//! or to the end.
#![tactic(auto)]

mod heard;
mod run;
mod turns;

pub use heard::Heard;
pub use run::{GivenRun, run_given, run_layouts};
