//! Boundary tags: what a block or a gap of a carrier says of itself in its first unit, and a gap in
//! its last one.
#![tactic(auto)]

pub mod array;
pub mod header;
pub mod paged;

pub use array::UnitArray;
pub use header::Header;
pub use paged::PagedArray;
