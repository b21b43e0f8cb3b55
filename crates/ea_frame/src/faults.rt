//! Why a run has no text, with its status and its line.
ghost use Rattle.std.specs.Prelude.{◌≡◌, ◌⊎◌, OnOk, OnErr};
ghost use Rattle.std.specs.Io.KnownBytes.{Appends};
ghost use Rattle.ea_io.specs.Calls.{StopsWriting};
ghost use Rattle.ea_io.specs.Counts.{Calm};
ghost use Rattle.ea_io.specs.Fronts.{AppendsFront};
ghost use Rattle.ea_frame.specs.Faults.{Complains, fault_line, line_with, refusal_text, status_of};
ghost use Rattle.ea_frame.specs.declared.faults.Fault.TheVariants as fault;

use ea_flags::FlagFault;
use ea_io::{Failed, ReadAllFault, Sink, write_texts};
use ea_model::OutOfMemory;
use ea_trace::TraceFault;
use itoa::Buffer;

/// Why a run has no text.
#[derive(Debug, Clone, Copy, PartialEq, Eq)]
pub enum Fault {
    /// The words are refused.
    Words(FlagFault),
    /// The input is refused: it isn't in the language of the command.
    Input(TraceFault),
    /// The input has more than 2^24 bytes.
    TooLong,
    /// The source failed.
    ReadFailed,
    /// The sink of the text failed.
    WriteFailed,
    /// There was no memory.
    OutOfMemory,
    /// The input is in the language of the command, but asks for what the command doesn't run.
    ScheduleWanted,
}

impl From<FlagFault> for Fault {
    ghost from_gives = { λ refusal f. f ≡ fault.Words refusal };

    fn from(refusal: FlagFault) -> Fault {
        Fault::Words(refusal)
    }
}

impl From<TraceFault> for Fault {
    ghost from_gives = { λ refusal f. f ≡ fault.Input refusal };

    fn from(refusal: TraceFault) -> Fault {
        Fault::Input(refusal)
    }
}

impl From<OutOfMemory> for Fault {
    ghost from_gives = { λ _ f. f ≡ fault.OutOfMemory };

    fn from(_: OutOfMemory) -> Fault {
        Fault::OutOfMemory
    }
}

impl Fault {
    /// The status that it ends with.
    pub fn status(self) -> u8
        ensures { result ≡ status_of self }
    {
        match self {
            Fault::Words(_) => 1,
            Fault::Input(TraceFault::OutOfMemory) | Fault::OutOfMemory => 5,
            Fault::Input(_) | Fault::TooLong => 2,
            Fault::ReadFailed => 3,
            Fault::WriteFailed => 4,
            Fault::ScheduleWanted => 7,
        }
    }
}

/// Writes the line with this text.
fn write_with<E: Sink>(err: &mut E, text: &str) -> Result<(), Failed>
    ensures whole { OnOk result (Appends (E.taken err.old) (E.taken err.new) (line_with text.now)) }
    ensures front { AppendsFront (E.taken err.old) (E.taken err.new) (line_with text.now) }
    ensures kept { OnOk result (E.faults err.new ≡ E.faults err.old) }
    ensures stops { OnErr result (StopsWriting E.taken E.faults err.old err.new) }
{
    write_texts(err, &["erts_alloc_run: ", text, "\n"])
}

/// Writes the line of a refusal: what is refused, by its number if it has one, and what is wrong.
fn write_refusal<E: Sink>(
    err: &mut E,
    thing: &str,
    number: Option<u32>,
    what: &str,
) -> Result<(), Failed>
    ensures whole { OnOk result (Appends (E.taken err.old) (E.taken err.new)
        (line_with (refusal_text thing.now number what.now))) }
    ensures front { AppendsFront (E.taken err.old) (E.taken err.new)
        (line_with (refusal_text thing.now number what.now)) }
    ensures kept { OnOk result (E.faults err.new ≡ E.faults err.old) }
    ensures stops { OnErr result (StopsWriting E.taken E.faults err.old err.new) }
{
    let Some(number) = number else {
        return write_with(err, what);
    };
    let mut buffer = Buffer::new();
    let digits = buffer.format(number);
    write_texts(
        err,
        &["erts_alloc_run: ", thing, " ", digits, ": ", what, "\n"],
    )
}

fn write_line<E: Sink>(err: &mut E, fault: Fault) -> Result<(), Failed>
    ensures whole { OnOk result (Appends (E.taken err.old) (E.taken err.new) (fault_line fault)) }
    ensures front { AppendsFront (E.taken err.old) (E.taken err.new) (fault_line fault) }
    ensures kept { OnOk result (E.faults err.new ≡ E.faults err.old) }
    ensures stops { OnErr result (StopsWriting E.taken E.faults err.old err.new) }
{
    match fault {
        Fault::Words(refusal) => write_refusal(err, "word", refusal.word(), refusal.message()),
        Fault::Input(refusal) => write_refusal(err, "line", refusal.line(), refusal.message()),
        Fault::TooLong => write_with(err, ReadAllFault::TooLong.message()),
        Fault::ReadFailed => write_with(err, ReadAllFault::ReadFault.message()),
        Fault::WriteFailed => write_with(err, "write failed"),
        Fault::OutOfMemory => write_with(err, OutOfMemory.message()),
        Fault::ScheduleWanted => write_with(err, "schedule wanted"),
    }
}

/// Writes the line of a fault. After a fault of `err` nothing more is written.
pub fn complain<E: Sink>(err: &mut E, fault: Fault)
    ensures line { Complains (E.taken err.old) (E.taken err.new)
        (Calm (E.faults err.old) (E.faults err.new)) fault }
    ensures stops { (E.faults err.new ≡ E.faults err.old)
        ⊎ StopsWriting E.taken E.faults err.old err.new }
{
    let _ = write_line(err, fault);
}
