//! Sizes by position, of which the least that is great enough, the greatest, and the lowest and the
//! highest position of a size are found in logarithmic time.
#![tactic(auto)]

pub mod map;

pub use map::{HeldSize, SizeMap};
