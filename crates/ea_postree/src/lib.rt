//! Values by position, of which the first that is great enough is found in logarithmic time.
#![tactic(auto)]

mod paths;
pub mod tree;

pub use tree::PosTree;
