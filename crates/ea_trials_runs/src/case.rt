//! What a run is given, and what it tells.
ghost use Rattle.std.specs.Prelude.{◌≡◌, ◌^◌, ◌<◌, ◌≤◌, IfOk, length};

use ea_io::{Sink, Source};
use ea_model::{List, OutOfMemory};
use ea_top::run;
use ea_trials_io::{MemSink, MemSource};
use std::alloc::Global;
use std::thread::Threads;

/// The bytes that a sink of a case has room for.
const ROOM: usize = 1 << 18;

/// The most words of a case.
const MOST_WORDS: usize = 100;

/// What a run is given.
#[derive(Debug, Clone, Copy)]
pub struct Case<'a> {
    /// The words of the command line, spaces between them. `''` is the empty word.
    pub words: &'a str,
    /// The bytes of the source.
    pub input: &'a [u8],
    /// The most bytes of each read and each write. 0 counts as 1.
    pub piece: usize,
    /// The reads that fail, from 1.
    pub failing_reads: &'a [u32],
    /// The writes of output that fail, from 1.
    pub failing_writes: &'a [u32],
    /// The writes of the error line that fail, from 1.
    pub failing_complaints: &'a [u32],
}

/// No words and no bytes, in pieces of 16 bytes, and no call fails.
pub const PLAIN: Case = Case {
    words: "",
    input: b"",
    piece: 16,
    failing_reads: &[],
    failing_writes: &[],
    failing_complaints: &[],
};

/// Why a case was not run.
#[derive(Debug, Clone, Copy, PartialEq, Eq)]
pub enum NotRun {
    /// There was no memory for what it is given.
    OutOfMemory,
    /// It has more than 100 words.
    TooManyWords,
}

impl From<OutOfMemory> for NotRun {
    fn from(_: OutOfMemory) -> NotRun {
        NotRun::OutOfMemory
    }
}

/// What a run reads and writes.
#[derive(Drop)]
pub struct Streams {
    /// Where the input comes from.
    pub source: MemSource,
    /// Where the output goes.
    pub out: MemSink,
    /// Where the error line goes.
    pub err: MemSink,
}

/// A run that is over.
#[derive(Drop)]
pub struct Ran {
    /// Its status.
    pub status: u8,
    /// Where the output went.
    pub out: MemSink,
    /// Where the error line went.
    pub err: MemSink,
}

impl Ran {
    /// The status, the output and the error line.
    pub fn told(&self) -> (u8, &str, &str)
        ensures { result.0 ≡ self.now.status }
    {
        (self.status, text(self.out.taken()), text(self.err.taken()))
    }
}

fn text(bytes: &[u8]) -> &str {
    str::from_utf8(bytes).unwrap_or("(not UTF-8)")
}

impl Case<'_> {
    /// Runs the case, as a trace.
    pub fn run<R: Threads + Sync>(&self, rt: &R, alloc: Global) -> Result<Ran, NotRun>
        ensures { IfOk result (λ ran. ran.status ≤ 5) }
    {
        let Streams {
            mut source,
            mut out,
            mut err,
        } = self.streams(alloc)?;
        let status = run_words(rt, alloc, self.words, &mut source, &mut out, &mut err)?;
        Ok(Ran { status, out, err })
    }

    /// What its run reads and writes, before it begins.
    pub fn streams(&self, alloc: Global) -> Result<Streams, NotRun> {
        let source = MemSource::new(
            list(alloc, self.input)?,
            self.piece.max(1),
            list(alloc, self.failing_reads)?,
        );
        let out = self.sink(alloc, self.failing_writes)?;
        let err = self.sink(alloc, self.failing_complaints)?;
        Ok(Streams { source, out, err })
    }

    fn sink(&self, alloc: Global, failing: &[u32]) -> Result<MemSink, NotRun> {
        Ok(MemSink::new(alloc, ROOM, self.piece.max(1), list(alloc, failing)?)?)
    }
}

/// Runs the words of a command line, spaces between them, over the source and the sinks. The result
/// is the status. `''` is the empty word.
pub fn run_words<R: Threads + Sync, S: Source, O: Sink, E: Sink>(
    rt: &R,
    alloc: Global,
    line: &str,
    source: &mut S,
    out: &mut O,
    err: &mut E,
) -> Result<u8, NotRun>
    ensures { IfOk result (λ status. status ≤ 5) }
{
    let words = words_of(alloc, line)?;
    Ok(run(rt, alloc, &words, source, out, err))
}

/// The words of a line, spaces between them. `''` is the empty word.
pub fn words_of(alloc: Global, line: &str) -> Result<Vec<String>, NotRun>
    ensures { IfOk result (λ words. length words.items < 2 ^ 32) }
{
    let words = split(alloc, line)?;
    if words.len() > MOST_WORDS {
        return Err(NotRun::TooManyWords);
    }
    Ok(words)
}

fn split(alloc: Global, line: &str) -> Result<Vec<String>, OutOfMemory> {
    let mut words = Vec::new(alloc);
    for word in line.split_whitespace() {
        let word = if word == "''" { "" } else { word };
        words.push(String::from_str(alloc, word)?)?;
    }
    Ok(words)
}

fn list<T: Copy>(alloc: Global, items: &[T]) -> Result<List<T>, OutOfMemory> {
    Ok(List::from_vec(Vec::from_slice(alloc, items)?))
}
