//! The call of the command.
ghost use Rattle.std.specs.Prelude.{◌^◌, ◌<◌, length};
ghost use Rattle.ea_frame.specs.Answered.{Answered, end_of};
ghost use Rattle.ea_types.specs.Command.{typed_traces};

use crate::part::TypedTraces;
use ea_frame::run_part;
use ea_io::{Sink, Source};
use std::alloc::Global;
use std::thread::Threads;

/// Reads the words, then the whole input, runs the trace of each type on carriers of its own, and
/// writes the text to `out` in one piece: for each type in order its line, and the text of its run.
/// Where there is no text, one line on `err` says why.
///
/// The status is 0 where the text was written; 1 where the words are refused; 2 where the input has
/// more than 2^24 bytes or is refused; 3 where the source failed; 4 where `out` failed; 5 where
/// there was no memory.
pub fn run_types<R: Threads + Sync, S: Source, O: Sink, E: Sink>(
    rt: &R,
    alloc: Global,
    words: &[String],
    source: &mut S,
    out: &mut O,
    err: &mut E,
) -> u8
    requires { length words.now < 2 ^ 32 }

    // At status 0 the text is, for each type, that of a list of steps of its own run. Where the
    // input has a schedule, these are exactly the type's own turns of the completed one: each turn
    // of a scheduler is one step in the type of its present line, which is over when its log there
    // has grown, or after its last line in the first type in which it hasn't ended; after the
    // schedule scheduler 1 goes on until it has ended in each type, then scheduler 2, up to the
    // last one. With threads they are steps in whatever order, after which each scheduler has
    // ended. And at every moment of every list of steps of each valid trace under such words the
    // machine keeps its protocol.
    ensures { Answered typed_traces words.now (end_of S.left S.faults source.old source.new)
        (end_of O.taken O.faults out.old out.new) (end_of E.taken E.faults err.old err.new) result }
{
    let part = TypedTraces { rt };
    run_part(&part, alloc, words, source, out, err)
}
