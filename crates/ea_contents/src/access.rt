//! Writes and reads, and what operations make.

/// A word of a block is written or read, by the name of the block and the word's index.
#[derive(Debug, Clone, Copy, PartialEq, Eq)]
pub enum Access {
    /// The word with that index, from 0, becomes this value.
    Write { name: u32, index: u32, value: u32 },
    /// The word with that index, from 0, is told.
    Read { name: u32, index: u32 },
}

/// The name that an operation makes, and the name whose words it takes over, if there is one.
#[derive(Debug, Clone, Copy, PartialEq, Eq)]
pub struct Making {
    pub fresh: u32,
    pub source: Option<u32>,
}

/// What came of a write or a read.
#[derive(Debug, Clone, Copy, PartialEq, Eq)]
pub enum AccessEntry {
    /// The word became the value.
    Wrote { name: u32, index: u32 },
    /// The word was this value.
    Found { name: u32, index: u32, value: u32 },
    /// The block has no word with that index.
    WriteOutside { name: u32, index: u32 },
    /// The block has no word with that index.
    ReadOutside { name: u32, index: u32 },
    /// The scheduler doesn't hold the name.
    WriteSkipped { name: u32 },
    /// The scheduler doesn't hold the name.
    ReadSkipped { name: u32 },
}
