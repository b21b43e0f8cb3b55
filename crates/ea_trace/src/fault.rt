//! Why a text is no trace.
ghost use Rattle.std.specs.Prelude.{◌≡◌};
ghost use Rattle.ea_trace.specs.Refusals.{line_of, message_of};
ghost use Rattle.ea_trace.specs.declared.fault.TraceFault.TheVariants as fault;

use ea_model::OutOfMemory;
use std::alloc::AllocError;

/// Why a text is no trace. Lines count from 1. The first refused line decides; of one line the
/// first of `Syntax`, `BadScheduler`, `TooMany`, `NameReused` and `NotHeld` that holds.
#[derive(Debug, Clone, Copy, PartialEq, Eq)]
pub enum TraceFault {
    /// The line isn't one that may stand there, or is malformed, or a number that isn't a
    /// scheduler's is out of its range.
    Syntax { line: u32 },
    /// The line begins another section than the next due, names a scheduler that isn't there, or
    /// ends the sections too early.
    BadScheduler { line: u32 },
    /// The line makes a name that an earlier line made, or gives a name that an earlier line gave.
    NameReused { line: u32 },
    /// The line needs a name that no earlier line of its section made or took.
    NotHeld { line: u32 },
    /// No line gives the name that the line takes to its scheduler.
    NotAddressed { line: u32 },
    /// With this line the operations, the tries or the turns are more than a trace may have.
    TooMany { line: u32 },
    /// The text ends before an `end` line.
    NoEnd,
    /// There was no memory.
    OutOfMemory,
}

impl TraceFault {
    /// The number of the refused line; None where no line alone is refused.
    pub fn line(&self) -> Option<u32>
        ensures { result ≡ line_of self.now }
    {
        match self {
            TraceFault::Syntax { line }
            | TraceFault::BadScheduler { line }
            | TraceFault::NameReused { line }
            | TraceFault::NotHeld { line }
            | TraceFault::NotAddressed { line }
            | TraceFault::TooMany { line } => Some(*line),
            TraceFault::NoEnd | TraceFault::OutOfMemory => None,
        }
    }

    /// What is wrong, without the number of the line.
    pub fn message(&self) -> &'static str
        ensures { result.now ≡ message_of self.now }
    {
        match self {
            TraceFault::Syntax { .. } => "syntax",
            TraceFault::BadScheduler { .. } => "bad scheduler",
            TraceFault::NameReused { .. } => "name reused",
            TraceFault::NotHeld { .. } => "name not held",
            TraceFault::NotAddressed { .. } => "name not addressed",
            TraceFault::TooMany { .. } => "too many",
            TraceFault::NoEnd => "no end line",
            TraceFault::OutOfMemory => OutOfMemory.message(),
        }
    }
}

impl From<OutOfMemory> for TraceFault {
    ghost from_gives = { λ _ f. f ≡ fault.OutOfMemory };

    fn from(_: OutOfMemory) -> TraceFault {
        TraceFault::OutOfMemory
    }
}

impl From<AllocError> for TraceFault {
    ghost from_gives = { λ _ f. f ≡ fault.OutOfMemory };

    fn from(_: AllocError) -> TraceFault {
        TraceFault::OutOfMemory
    }
}
