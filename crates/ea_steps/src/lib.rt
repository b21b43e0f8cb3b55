//! The steps of a run: each atomic step of the run of a trace with a schedule, with what it did;
//! and the command that prints them.
#![tactic(auto)]

mod changes;
mod counts;
mod front;
mod groups;
mod joined;
mod lines;
mod made;
mod part;
mod placed;
mod released;
mod rows;
mod steps;
mod telling;
mod touched;

pub use joined::Joined;
pub use placed::PlacedBlock;
pub use steps::run_steps;
