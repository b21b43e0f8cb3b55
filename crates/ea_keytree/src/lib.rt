//! Keys by position, of which the least that is great enough, and the greatest that is small
//! enough, are found in logarithmic time.
#![tactic(auto)]

mod nodes;
mod searches;
pub mod tree;

pub use tree::{Found, KeyTree};
