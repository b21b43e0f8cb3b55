//! The call of the command.
ghost use Rattle.std.specs.Prelude.{◌^◌, ◌<◌, length};
ghost use Rattle.ea_frame.specs.Answered.{Answered, end_of};
ghost use Rattle.ea_hist.specs.Language.{histograms};

use crate::part::Histograms;
use ea_frame::run_part;
use ea_io::{Sink, Source};
use std::alloc::Global;

/// Reads the words, then the whole input, which is a trace with a schedule, runs it, and writes the
/// histograms of the carriers that are there in the end to `out` in one piece. Where there is no
/// text, one line on `err` says why.
///
/// The status is 0 where the text was written; 1 where the words are refused; 2 where the input has
/// more than 2^24 bytes or isn't a trace; 3 where the source failed; 4 where `out` failed; 5 where
/// there was no memory; 7 where the trace has no schedule: its schedulers run on threads, or its
/// operations are generated.
pub fn run_hist<S: Source, O: Sink, E: Sink>(
    alloc: Global,
    words: &[String],
    source: &mut S,
    out: &mut O,
    err: &mut E,
) -> u8
    requires { length words.now < 2 ^ 32 }

    // At status 0 each count of the text is how many blocks, or gaps, of a carrier have a size in
    // the interval, in the state in which the completed schedule ends; each carrier that is there
    // has its line, by number, wherever it is, and the last line has the sums. And at every moment
    // of every list of steps of each valid trace under such words the machine keeps its protocol.
    ensures { Answered histograms words.now (end_of S.left S.faults source.old source.new)
        (end_of O.taken O.faults out.old out.new) (end_of E.taken E.faults err.old err.new) result }
{
    run_part(&Histograms, alloc, words, source, out, err)
}
