//! What all commands share. A command reads its words and then an input, makes a text of the input,
//! and writes it in one piece; where there is no text, a status and a line say why. Which inputs
//! there are and which texts they have is the language of the command; what makes a text is its
//! `Part`.
#![tactic(auto)]

mod faults;
mod frame;

pub use faults::{Fault, complain};
pub use frame::{Part, run_part};
