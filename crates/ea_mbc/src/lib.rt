//! A multiblock carrier, whose blocks and gaps are told by tags in its own units: each has its
//! header in its first unit, and each gap its size in its last one. So what lies beside a block is
//! found at once. Two gaps never lie side by side.
#![tactic(auto)]

pub mod carrier;
mod choosing;
mod coding;
mod index;
pub mod parts;
pub mod spare;
mod units;

pub use carrier::{Freed, Mbc, Placed, Resized};
pub use parts::Part;
pub use spare::Spare;
