//! An input of recorded operations.

use ea_model::{List, Rules, Trace};

/// An input of recorded operations, as it was read.
#[derive(Drop)]
pub struct RecordedInput {
    /// The rules of a node by which it is run.
    pub rules: Rules,
    /// The trace whose sections are the lines of each scheduler, in their order. Its schedule is
    /// empty.
    pub trace: Trace,
    /// The scheduler of each line, in the order of the lines.
    pub order: List<u32>,
}
