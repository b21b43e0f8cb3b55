//! The call of the command.
ghost use Rattle.std.specs.Prelude.{◌^◌, ◌<◌, length};
ghost use Rattle.ea_frame.specs.Answered.{Answered, end_of};
ghost use Rattle.ea_recorded.specs.Command.{recorded_traces};

use crate::part::RecordedPart;
use ea_frame::run_part;
use ea_io::{Sink, Source};
use std::alloc::Global;

/// Reads the words, then the whole input, runs its operations in their order, and writes the text
/// to `out` in one piece. Where there is no text, one line on `err` says why.
///
/// The status is 0 where the text was written; 1 where the words are refused; 2 where the input has
/// more than 2^24 bytes or is refused; 3 where the source failed; 4 where `out` failed; 5 where
/// there was no memory. It may be 5 in place of 2, since the whole input is kept before its first
/// line is read; `read_recorded` says which refusals need no memory beyond that.
pub fn run_recorded<S: Source, O: Sink, E: Sink>(
    alloc: Global,
    words: &[String],
    source: &mut S,
    out: &mut O,
    err: &mut E,
) -> u8
    requires { length words.now < 2 ^ 32 }

    // At status 0 the text is that of the trace whose sections are the lines of each scheduler in
    // their order, which is valid, by the rules of the input's `rules` line, or by none, after
    // exactly these steps: those of the scheduler of the first line until its log has grown, then
    // those of the second line's, up to the last one, and then those of each scheduler until it has
    // ended. And at every moment of every list of steps of each valid trace under such words, by
    // whatever rules, the machine keeps its protocol.
    ensures { Answered recorded_traces words.now (end_of S.left S.faults source.old source.new)
        (end_of O.taken O.faults out.old out.new) (end_of E.taken E.faults err.old err.new) result }
{
    run_part(&RecordedPart, alloc, words, source, out, err)
}
