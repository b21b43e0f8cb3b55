//! Runs each case of a text through the call of its command, and prints what it gave. The cases are
//! in the file stdin beside src/, and what they have to give is in stdout: rt ci compares it, and
//! leaves what was printed in out/stdout. A case is added to both files by hand: what it has to give
//! is worked out, and never taken from the program.
//!
//! Empty lines and lines that begin with # are skipped. The lines of a case are, in this order:
//!
//! - `case NAME`, where the name is what the case shows;
//! - `words WORD ..`, the words of the command line, of which the first may name a command; `''` is
//!   the empty word. Without this line there are none;
//! - `piece BYTES`, the most bytes of each read and each write; 16 without this line;
//! - `input`, and the lines of the input after it; or `same input`, that of the case before it.
//!   Without either the first read fails, which shows where nothing is read;
//! - `run`.
//!
//! A line of the input stands after a mark: `> TEXT` is the text and a line feed, and `+ TEXT` the
//! text alone. `byte NUMBER` is the byte of that number, for what a line can't show: 9 is a tab, 13
//! a carriage return.
//!
//! For each case it prints `case NAME`, `status NUMBER`, the error line after the word `error`, if
//! there is one, the output, and an empty line.
//!
//! It ends with status 0; with 1 at a line that is none of these, whose number it prints; with 3
//! where its input can't be read or is no text of at most 2^24 bytes; with 4 where its output can't
//! be written; with 5 where there is no memory.
#![tactic(auto)]

mod commands;
mod draft;
mod fault;
mod lines;

use commands::run_case;
use draft::Draft;
use ea_io::{Sink, Source, StdSink, StdSource, put_number, put_text, read_all, write_all};
use ea_model::List;
use ea_trials_runs::Ran;
use fault::Fault;
use lines::Line;
use std::alloc::Global;
use std::process::ExitCode;
use std::sync::Wait;
use std::thread::Threads;

/// The most bytes of the cases.
const MOST_BYTES: usize = 1 << 24;

fn main(rt: HostRuntime) -> ExitCode {
    let alloc = rt.alloc();
    let mut source = StdSource::new(rt.stdin());
    let mut out = StdSink::new(rt.stdout());
    let status = match run_cases(&rt, alloc, &mut source, &mut out) {
        Ok(()) => 0,
        Err(fault) => fault.status(),
    };
    ExitCode::from(status)
}

fn run_cases<R: Threads + Wait + Sync, S: Source, O: Sink>(
    rt: &R,
    alloc: Global,
    source: &mut S,
    out: &mut O,
) -> Result<(), Fault> {
    let bytes = read_all(alloc, source, MOST_BYTES)?;
    let text = str::from_utf8(bytes.as_slice())?;
    let mut draft = Draft::new(alloc);
    for (line, number) in text.lines().zip(1..) {
        match lines::read(line) {
            Some(Line::Run) => {
                let ran = run_case(rt, alloc, &draft.case())?;
                print(alloc, out, draft.name(), &ran)?;
            }
            Some(line) => draft.take(line)?,
            None => {
                complain(alloc, out, number)?;
                return Err(Fault::Line);
            }
        }
    }
    Ok(())
}

fn print<O: Sink>(alloc: Global, out: &mut O, name: &str, ran: &Ran) -> Result<(), Fault> {
    let mut text = List::new(alloc);
    put_text(&mut text, "case ")?;
    put_text(&mut text, name)?;
    put_text(&mut text, "\nstatus ")?;
    put_number(&mut text, u64::from(ran.status))?;
    put_text(&mut text, "\n")?;
    if !ran.err.taken().is_empty() {
        put_text(&mut text, "error ")?;
    }
    text.extend_from_slice(ran.err.taken())?;
    text.extend_from_slice(ran.out.taken())?;
    put_text(&mut text, "\n")?;
    write_all(out, text.as_slice())?;
    Ok(())
}

fn complain<O: Sink>(alloc: Global, out: &mut O, number: u64) -> Result<(), Fault> {
    let mut text = List::new(alloc);
    put_text(&mut text, "line ")?;
    put_number(&mut text, number)?;
    put_text(&mut text, " is no line of a case\n")?;
    write_all(out, text.as_slice())?;
    Ok(())
}
