//! The program: words from the command line, the input from standard input, the text to standard
//! output. It ends with the status of the command, or with 5 where the words could not be had for want
//! of memory, or with 8 where they could not be had for another cause, or are 2^32 or more.
#![tactic(auto)]

mod commands;
mod program;

use ea_io::{StdSink, StdSource};
use program::run_program;
use std::alloc::Global;
use std::env::Env;
use std::io::ErrorKind;
use std::process::ExitCode;
use std::{env, io};

/// No words for want of memory.
const NO_MEMORY: u8 = 5;
/// No words for another cause, or too many.
const NO_WORDS: u8 = 8;

fn main(rt: HostRuntime) -> ExitCode {
    let alloc = rt.alloc();
    let status = match words_of(&rt, alloc) {
        Ok(words) if (words.len() as u64) < 1 << 32 => {
            let mut source = StdSource::new(rt.stdin());
            let mut out = StdSink::new(rt.stdout());
            let mut err = StdSink::new(rt.stderr());
            run_program(&rt, alloc, &words, &mut source, &mut out, &mut err)
        }
        Err(error) if error.kind() == ErrorKind::OutOfMemory => NO_MEMORY,
        _ => NO_WORDS,
    };
    ExitCode::from(status)
}

/// The words without the program's name.
fn words_of<R: Env + Alloc>(rt: &R, alloc: Global) -> io::Result<Vec<String<R::A>>> {
    let mut words = env::args(rt)?;
    let _ = words.next();
    Ok(words.collect(alloc)?)
}
