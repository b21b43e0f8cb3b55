//! Histograms of a run: how many blocks and gaps of each carrier, and of all together, have sizes
//! in each of 18 intervals that double, once the schedule of a trace is completed; and the command
//! that prints them.
#![tactic(auto)]

mod counting;
mod histograms;
mod part;
mod text;

pub use counting::{INTERVALS, counts_of};
pub use histograms::run_hist;
pub use text::print_histograms;
