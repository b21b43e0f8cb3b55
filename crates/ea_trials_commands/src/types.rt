//! Inputs with several types.

mod reader;
pub mod worked;
