//! The set of the carriers that an allocator instance employs, in the order of its strategy, which
//! finds in it the first carrier whose largest gap is great enough.
#![tactic(auto)]

pub mod keys;
mod places;
mod ranking;
pub mod set;

pub use keys::{CarrierFit, CarrierKey, Found, Order};
pub use set::CarrierSet;
