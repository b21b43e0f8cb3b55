//! The outcome of a run in which nobody steps any more, the layouts of its carriers, and where its
//! blocks lie, read off schedulers and what they share.
#![tactic(auto)]

mod extents;
mod finding;
mod found;
mod layouts;
mod outcome;
mod units;

pub use extents::extent_of;
pub use finding::find;
pub use found::Found;
pub use layouts::layouts_of;
pub use outcome::outcome_of;
