//! The top call: words and a trace in, text and status out.
#![tactic(auto)]

mod part;
mod top;

pub use top::run;
