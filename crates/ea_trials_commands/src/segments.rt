//! Inputs for one shared region.

mod runs;
pub mod worked;
