//! An input with writes and reads.
use crate::access::Access;
use ea_model::{List, Trace};

/// A write or a read of a section.
#[derive(Debug, Clone, Copy, PartialEq, Eq)]
pub struct Placed {
    /// After how many operations of the section it stands.
    pub after: usize,
    pub access: Access,
}

/// An input with writes and reads, as it was read.
#[derive(Drop)]
pub struct ContentsInput {
    /// The input without its writes and reads.
    pub trace: Trace,
    /// The writes and reads of each scheduler in order, scheduler 1's first.
    pub sections: List<List<Placed>>,
}
