//! Sources and sinks in memory, whose calls fail where their maker says, or never; with them the
//! calls of ea_io are tested. Only crates of tests stand on it.
#![tactic(auto)]

mod memory;
mod pieces;
mod plain;
#[cfg(test)]
mod tests;

pub use memory::{MemSink, MemSource};
pub use plain::{LengthSink, PlainSource};
