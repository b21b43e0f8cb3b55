//! What blocks contain.

pub mod inputs;
mod memory;
pub mod worked;
