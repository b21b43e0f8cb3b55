//! The call that the program makes.
ghost use Rattle.std.specs.Prelude.{◌≡◌, ◌^◌, ◌<◌, length};
ghost use Rattle.ea_frame.specs.Answered.{Answered, end_of};
ghost use Rattle.erts_alloc_run.specs.Commands.{after_first, command, language_of, words_for};

use crate::commands::{Command, command_of};
use ea_contents::run_contents;
use ea_hist::run_hist;
use ea_io::{Sink, Source};
use ea_recorded::run_recorded;
use ea_steps::run_steps;
use ea_super::run_super;
use ea_top::run;
use ea_types::run_types;
use std::alloc::Global;
use std::sync::Wait;
use std::thread::Threads;

/// The words after the first.
fn after_first(words: &[String]) -> &[String]
    ensures { result.now ≡ after_first words.now }
{
    match words {
        [] => words,
        [_, after @ ..] => after,
    }
}

/// Answers as the command does that the first word names, over the words after that one, of which
/// the first then has the number 1. Where the first word names no command, a trace is run, over all
/// words.
pub fn run_program<R: Threads + Wait + Sync, S: Source, O: Sink, E: Sink>(
    rt: &R,
    alloc: Global,
    words: &[String],
    source: &mut S,
    out: &mut O,
    err: &mut E,
) -> u8
    requires { length words.now < 2 ^ 32 }
    ensures { Answered (language_of (command words.now)) (words_for (command words.now) words.now)
        (end_of S.left S.faults source.old source.new)
        (end_of O.taken O.faults out.old out.new) (end_of E.taken E.faults err.old err.new) result }
{
    match command_of(words) {
        Command::Trace => run(rt, alloc, words, source, out, err),
        Command::Types => run_types(rt, alloc, after_first(words), source, out, err),
        Command::Super => run_super(rt, alloc, after_first(words), source, out, err),
        Command::Recorded => run_recorded(alloc, after_first(words), source, out, err),
        Command::Histogram => run_hist(alloc, after_first(words), source, out, err),
        Command::Contents => run_contents(alloc, after_first(words), source, out, err),
        Command::Steps => run_steps(alloc, after_first(words), source, out, err),
    }
}
