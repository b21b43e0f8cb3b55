//! Reading a source to its end.
ghost use Rattle.std.specs.Prelude.{◌≡◌, ◌+◌, ◌^◌, ◌<◌, ◌≤◌, IfOk, OnOk, IfSome, IsErrOf, length};
ghost use Rattle.std.specs.Io.KnownBytes.{IsAtEnd};
ghost use Rattle.ea_io.specs.Calls.{OnlyReads, StopsReading};
ghost use Rattle.ea_io.specs.Counts.{Rose};
ghost use Rattle.ea_io.specs.Fronts.{ConsumesAtMost, ConsumesMany};
ghost use Rattle.ea_io.specs.Messages.{message_of};
ghost use Rattle.ea_io.specs.declared.reading.ReadAllFault.TheVariants.{OutOfMemory};

use crate::ends::Source;
use ea_model::{List, OutOfMemory as NoMemory};
use std::alloc::{AllocError, Global};

/// Why a source was not read to its end.
#[derive(Debug, Drop)]
pub enum ReadAllFault {
    /// A read failed: the source's count of faults rose.
    ReadFault,
    /// The source gave one byte more than the limit.
    TooLong,
    /// There was no memory for the bytes.
    OutOfMemory,
}

impl ReadAllFault {
    /// What went wrong.
    pub fn message(&self) -> &'static str
        ensures { result.now ≡ message_of self.now }
    {
        match self {
            ReadAllFault::ReadFault => "read failed",
            ReadAllFault::TooLong => "input too long",
            ReadAllFault::OutOfMemory => NoMemory.message(),
        }
    }
}

impl From<AllocError> for ReadAllFault {
    ghost from_gives = { λ _ fault. fault ≡ OutOfMemory };

    fn from(_: AllocError) -> ReadAllFault {
        ReadAllFault::OutOfMemory
    }
}

// The most bytes that one read asks for: large enough that calls to the system are few, and small
// enough to stand on the stack.
const PIECE: usize = 4096;

/// All bytes of the source to its end, where there are at most `max`. `TooLong` comes exactly where
/// the source gave `max + 1` bytes. What was read before a refusal is taken from the source; after
/// a read that failed nothing more is read.
pub fn read_all<S: Source>(
    alloc: Global,
    source: &mut S,
    max: usize,
) -> Result<List<u8>, ReadAllFault>
    requires { max < 2 ^ 32 }
    ensures all { IfOk result (λ bytes.
        IfSome (S.left source.old) (λ input. bytes.items ≡ input)) }
    ensures end { OnOk result (IsAtEnd (S.left source.new)) }
    ensures short { IfOk result (λ bytes. length bytes.items ≤ max) }
    ensures kept { OnOk result (S.faults source.new ≡ S.faults source.old) }
    ensures reads { OnOk result (OnlyReads S.left S.faults source.old source.new) }
    ensures too_long { IsErrOf result ReadAllFault.TooLong →
        ConsumesMany (S.left source.old) (S.left source.new) (max + 1) }
    ensures too_long_kept { IsErrOf result ReadAllFault.TooLong →
        S.faults source.new ≡ S.faults source.old }
    ensures read_fault { IsErrOf result ReadAllFault.ReadFault →
        Rose (S.faults source.old) (S.faults source.new) }
    ensures read_fault_short { IsErrOf result ReadAllFault.ReadFault →
        ConsumesAtMost (S.left source.old) (S.left source.new) max }
    ensures read_fault_stops { IsErrOf result ReadAllFault.ReadFault →
        StopsReading S.left S.faults source.old source.new }
    ensures memory_kept { IsErrOf result ReadAllFault.OutOfMemory →
        S.faults source.new ≡ S.faults source.old }
    ensures taken { ConsumesAtMost (S.left source.old) (S.left source.new) (max + 1) }
    ensures grows { S.faults source.old ≤ S.faults source.new }
{
    let mut bytes = Vec::new(alloc);
    let mut buffer = [0; PIECE];
    while bytes.len() <= max {
        let want = PIECE.min(max + 1 - bytes.len());
        let Ok(count) = source.read(&mut buffer[..want]) else {
            return Err(ReadAllFault::ReadFault);
        };
        if count == 0 {
            return Ok(List::from_vec(bytes));
        }
        bytes.extend_from_slice(&buffer[..count])?;
    }
    Err(ReadAllFault::TooLong)
}
