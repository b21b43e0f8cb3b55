//! The call of the command.
ghost use Rattle.std.specs.Prelude.{◌^◌, ◌<◌, length};
ghost use Rattle.ea_frame.specs.Answered.{Answered, end_of};
ghost use Rattle.ea_contents.specs.Command.{contents_traces};

use crate::part::ContentsPart;
use ea_frame::run_part;
use ea_io::{Sink, Source};
use std::alloc::Global;

/// Reads the words, then the whole input, which is a trace with writes and reads of words of its
/// blocks, runs it, and writes its text to `out` in one piece: that of the run, and what came of
/// each write and of each read. Where there is no text, one line on `err` says why.
///
/// The status is 0 where the text was written; 1 where the words are refused; 2 where the input has
/// more than 2^24 bytes, or isn't such a trace; 3 where the source failed; 4 where `out` failed; 5
/// where there was no memory; 7 where the trace has no schedule, or a scheduler of it stops.
pub fn run_contents<S: Source, O: Sink, E: Sink>(
    alloc: Global,
    words: &[String],
    source: &mut S,
    out: &mut O,
    err: &mut E,
) -> u8
    requires { length words.now < 2 ^ 32 }

    // At status 0 the text is that of the run whose turns are steps of the schedulers, and the
    // writes and reads between them, each a turn of its own; each read has the word that the list of
    // its name has in the model, which knows no addresses. And at every moment of every list of steps
    // of each valid trace under such words the machine keeps its protocol, and a memory whose words
    // are copied with each block that moves keeps the words of each block the list of its name.
    ensures { Answered contents_traces words.now (end_of S.left S.faults source.old source.new)
        (end_of O.taken O.faults out.old out.new) (end_of E.taken E.faults err.old err.new) result }
{
    run_part(&ContentsPart, alloc, words, source, out, err)
}
