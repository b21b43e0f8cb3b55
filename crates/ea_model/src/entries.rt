//! What a scheduler's log says of its operations, one entry each, and of its stop.

use crate::carriers::Place;
use std::alloc::AllocError;

/// Why no carrier was created.
#[derive(Debug, Clone, Copy, PartialEq, Eq)]
pub enum NoCarrier {
    /// All carrier numbers of the instance are in use.
    Numbers,
    /// The instance's region has no run of free pages for the least carrier.
    Space,
}

/// A figure: as it is, its maximum since the last report, and its maximum ever.
#[derive(Debug, Clone, Copy, PartialEq, Eq)]
pub struct Triple {
    pub now: u64,
    pub last: u64,
    pub ever: u64,
}

/// The figures of the multiblock or of the singleblock carriers of an instance; sizes are in units.
#[derive(Debug, Clone, Copy, PartialEq, Eq)]
pub struct Report {
    pub blocks: Triple,
    pub blocks_size: Triple,
    pub carriers: Triple,
    pub carriers_size: Triple,
}

/// The allocator information of an instance: its multiblock carriers, and its singleblock ones.
#[derive(Debug, Clone, Copy, PartialEq, Eq)]
pub struct Reports {
    pub mbcs: Report,
    pub sbcs: Report,
}

/// What came of an operation. A type parameter stands for the allocator information: in what
/// contracts see it is the reports themselves, and a log keeps where they stand.
///
/// A block is queued as in Erlang/OTP's 'Delayed Dealloc', section 'Functionality Used to Address
/// This problem'.
#[derive(Debug, Copy, PartialEq, Eq)]
pub enum Entry<R> {
    /// A block was placed.
    Alloc {
        name: u32,
        place: Place,
    },
    /// No block was placed: `need` units were asked for, and `looked` pooled or busy carriers were
    /// seen in the last part of the search.
    AllocFail {
        name: u32,
        need: u32,
        looked: u32,
        why: NoCarrier,
    },
    /// The scheduler released the block itself.
    Free {
        name: u32,
    },
    /// The block was queued to instance `to`.
    FreeQueued {
        name: u32,
        to: u32,
    },
    /// The scheduler does not hold the name.
    FreeSkipped {
        name: u32,
    },
    /// The block keeps its offset.
    ReallocHere {
        old: u32,
        fresh: u32,
        place: Place,
    },
    /// The block moved, and the scheduler released the old one itself.
    ReallocMoved {
        old: u32,
        fresh: u32,
        place: Place,
    },
    /// The block moved, and the old one was queued to instance `to`.
    ReallocQueued {
        old: u32,
        fresh: u32,
        place: Place,
        to: u32,
    },
    /// The block could not move, and keeps its name and place.
    ReallocFail {
        old: u32,
        fresh: u32,
        need: u32,
        looked: u32,
        why: NoCarrier,
    },
    /// The scheduler does not hold the old name.
    ReallocSkipped {
        old: u32,
        fresh: u32,
    },
    /// The block was given to scheduler `to`.
    Give {
        name: u32,
        to: u32,
    },
    /// The scheduler does not hold the name.
    GiveSkipped {
        name: u32,
        to: u32,
    },
    /// The block was taken.
    Take {
        name: u32,
    },
    /// The name was not given at any of that many tries.
    TakeAbsent {
        name: u32,
        tries: u32,
    },
    /// The allocator information.
    Info {
        reports: R,
    },
    /// Nothing was to be done.
    Idle,
    /// No operation, but the end of the log: the scheduler stopped after that many steps.
    Stopped {
        steps: u32,
    },
}

impl<R: Copy> Clone for Entry<R> {
    fn clone(&self) -> Result<Self, AllocError> {
        Ok(*self)
    }
}
