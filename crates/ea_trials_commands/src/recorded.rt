//! Inputs of recorded operations.

mod reader;
pub mod worked;
