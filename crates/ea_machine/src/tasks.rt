//! Operations that release a block, and what becomes of it.

use ea_model::Place;

/// An operation that releases a block.
#[derive(Debug, Clone, Copy, PartialEq, Eq)]
pub enum Task {
    /// A free.
    Freeing { name: u32 },
    /// A reallocation that has placed its new block.
    Moving { old: u32, fresh: u32, place: Place },
}

/// Why a block is released.
#[derive(Debug, Clone, Copy, PartialEq, Eq)]
pub enum Why {
    /// It stood in the walk.
    Walk,
    /// It is released for an operation.
    For { task: Task },
}

/// What first became of a block that is released.
#[derive(Debug, Clone, Copy, PartialEq, Eq)]
pub enum Gone {
    /// Nothing yet.
    Open,
    /// The scheduler released it.
    Here,
    /// It was queued to that instance.
    Queued { to: u32 },
}
