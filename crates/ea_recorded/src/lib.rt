//! Operations in the order in which they were recorded: each line is run whole before the next one
//! begins.
#![tactic(auto)]

mod input;
mod laws;
mod lines;
mod order;
mod part;
mod reader;
mod recorded;
mod sections;

pub use input::RecordedInput;
pub use laws::lines_end;
pub use reader::read_recorded;
pub use recorded::run_recorded;
