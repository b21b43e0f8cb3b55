//! The call of the command.
ghost use Rattle.std.specs.Prelude.{◌^◌, ◌<◌, length};
ghost use Rattle.ea_frame.specs.Answered.{Answered, end_of};
ghost use Rattle.ea_steps.specs.Language.{told_steps};

use crate::part::Steps;
use ea_frame::run_part;
use ea_io::{Sink, Source};
use std::alloc::Global;

/// Reads the words, then the whole input, which is a trace with a schedule, runs it, and writes
/// each of its steps to `out` in one piece. Where there is no text, one line on `err` says why.
///
/// The status is 0 where the text was written; 1 where the words are refused; 2 where the input has
/// more than 2^24 bytes or isn't a trace; 3 where the source failed; 4 where `out` failed; 5 where
/// there was no memory; 7 where the trace has no schedule: its schedulers run on threads, or its
/// operations are generated.
pub fn run_steps<S: Source, O: Sink, E: Sink>(
    alloc: Global,
    words: &[String],
    source: &mut S,
    out: &mut O,
    err: &mut E,
) -> u8
    requires { length words.now < 2 ^ 32 }

    // At status 0 the text tells each step of the completed schedule, by what its scheduler wanted,
    // what that answered, and the states before and after it; and then the carriers in the end. And
    // at every moment of every list of steps of each valid trace under such words the machine keeps
    // its protocol.
    ensures { Answered told_steps words.now (end_of S.left S.faults source.old source.new)
        (end_of O.taken O.faults out.old out.new) (end_of E.taken E.faults err.old err.new) result }
{
    run_part(&Steps, alloc, words, source, out, err)
}
