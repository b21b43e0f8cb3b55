//! Why the cases ended early.
use ea_io::{Failed, ReadAllFault};
use ea_model::OutOfMemory;
use ea_trials_runs::NotRun;
use std::alloc::AllocError;
use std::str::Utf8Error;

#[derive(Debug, Clone, Copy, PartialEq, Eq)]
pub enum Fault {
    /// A line is none of a case, or a case has too many words.
    Line,
    /// The cases could not be read.
    Read,
    /// The output could not be written.
    Write,
    OutOfMemory,
}

impl Fault {
    /// The exit status.
    pub fn status(self) -> u8 {
        match self {
            Fault::Line => 1,
            Fault::Read => 3,
            Fault::Write => 4,
            Fault::OutOfMemory => 5,
        }
    }
}

impl From<AllocError> for Fault {
    fn from(_: AllocError) -> Fault {
        Fault::OutOfMemory
    }
}

impl From<OutOfMemory> for Fault {
    fn from(_: OutOfMemory) -> Fault {
        Fault::OutOfMemory
    }
}

impl From<ReadAllFault> for Fault {
    fn from(fault: ReadAllFault) -> Fault {
        match fault {
            ReadAllFault::OutOfMemory => Fault::OutOfMemory,
            ReadAllFault::ReadFault | ReadAllFault::TooLong => Fault::Read,
        }
    }
}

impl From<Utf8Error> for Fault {
    fn from(_: Utf8Error) -> Fault {
        Fault::Read
    }
}

impl From<Failed> for Fault {
    fn from(_: Failed) -> Fault {
        Fault::Write
    }
}

impl From<NotRun> for Fault {
    fn from(why: NotRun) -> Fault {
        match why {
            NotRun::OutOfMemory => Fault::OutOfMemory,
            NotRun::TooManyWords => Fault::Line,
        }
    }
}
