//! The trusted edge: readers and writers of std as a source and a sink. What a real file, terminal
//! or pipe gives and takes is not proved.
ghost use Rattle.std.specs.Prelude.{◌≡◌, ◌≤◌, None, IfOk, take};
ghost use Rattle.std.specs.Io.{WritesAtMost};
ghost use Rattle.std.specs.Io.KnownBytes.{Appends};
ghost use Rattle.ea_io.specs.Calls.{Writes};
ghost use Rattle.ea_io.specs.Counts.{next_count};
ghost use Rattle.ea_io.specs.Fronts.{AppendsFront};
ghost use Rattle.ea_io.specs.Standard.{reader_of, read_faults, writer_of, write_faults};

use crate::ends::{Failed, Sink, Source};
use std::io;
use std::io::{Read, Write};

/// A reader as a source. Each `Err` of the reader raises its count of faults, which stays at 2^64-1
/// once it is there. It tells the bytes left only where the reader itself tells them.
#[derive(Drop)]
pub struct StdSource<R> {
    reader: R,
    faults: u64,
}

impl<R: Read> StdSource<R> {
    /// A source of what the reader gives from here on, with no faults yet.
    pub fn new(reader: R) -> StdSource<R>
        ensures reader { reader_of result ≡ reader }
        ensures faults { ⟦<StdSource<R> as Source>⟧.faults result ≡ 0 }
    {
        StdSource { reader, faults: 0 }
    }

    // Counts a fault.
    fn fail(&mut self) -> Failed
        ensures once { read_faults self.new ≡ next_count (read_faults self.old) }
        ensures grows { read_faults self.old ≤ read_faults self.new }
        ensures reader { reader_of self.new ≡ reader_of self.old }
    {
        self.faults = self.faults.saturating_add(1);
        Failed
    }
}

impl<R: Read> Source for StdSource<R> {
    ghost left = { λ s. R.remaining (reader_of s) };

    ghost faults = { λ s. read_faults s };

    fn read(&mut self, buf: &mut [u8]) -> Result<usize, Failed> {
        match self.reader.read(buf) {
            Ok(count) => Ok(count),
            Err(_) => Err(self.fail()),
        }
    }
}

/// A writer as a sink, flushed after each write. Each `Err` of a write or a flush, and each write
/// that takes nothing of a nonempty piece, raises its count of faults, which stays at 2^64-1 once
/// it is there. It tells nothing of the bytes: after a failed flush nobody knows how many arrived.
#[derive(Drop)]
pub struct StdSink<W> {
    writer: W,
    faults: u64,
}

impl<W: Write> StdSink<W> {
    /// A sink that hands its bytes to the writer, with no faults yet.
    pub fn new(writer: W) -> StdSink<W>
        ensures writer { writer_of result ≡ writer }
        ensures faults { ⟦<StdSink<W> as Sink>⟧.faults result ≡ 0 }
    {
        StdSink { writer, faults: 0 }
    }

    // One write of the writer and the flush after it.
    fn write_through(&mut self, piece: &[u8]) -> io::Result<usize>
        ensures bound { WritesAtMost result piece.now }
        ensures handed { IfOk result (λ n. Appends (W.contents (writer_of self.old))
            (W.contents (writer_of self.new)) (take n piece.now)) }
        ensures front { AppendsFront (W.contents (writer_of self.old))
            (W.contents (writer_of self.new)) piece.now }
        ensures faults { write_faults self.new ≡ write_faults self.old }
    {
        let count = self.writer.write(piece)?;
        self.writer.flush()?;
        Ok(count)
    }

    // Counts a fault.
    fn fail(&mut self) -> Failed
        ensures once { write_faults self.new ≡ next_count (write_faults self.old) }
        ensures grows { write_faults self.old ≤ write_faults self.new }
        ensures writer { writer_of self.new ≡ writer_of self.old }
    {
        self.faults = self.faults.saturating_add(1);
        Failed
    }
}

impl<W: Write> Sink for StdSink<W> {
    ghost taken = { λ _. None };

    ghost size = { λ _. None };

    ghost faults = { λ s. write_faults s };

    fn write(&mut self, piece: &[u8]) -> Result<usize, Failed>
        ensures writes { Writes None None None None (write_faults self.old)
            (write_faults self.new) result piece.now }
        ensures handed { IfOk result (λ n. Appends (W.contents (writer_of self.old))
            (W.contents (writer_of self.new)) (take n piece.now)) }
        ensures front { AppendsFront (W.contents (writer_of self.old))
            (W.contents (writer_of self.new)) piece.now }
    {
        match self.write_through(piece) {
            Ok(count) if count > 0 || piece.is_empty() => Ok(count),
            _ => Err(self.fail()),
        }
    }
}
