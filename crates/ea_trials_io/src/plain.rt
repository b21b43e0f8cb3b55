//! A source and a sink that never fail.
ghost use Rattle.std.specs.Prelude.{◌≡◌, ◌+◌, min, length, Ok, Some, None};
ghost use Rattle.ea_io.specs.Calls.{Reads, Writes};
ghost use Rattle.ea_io.specs.Counts.{last_count};

use crate::pieces::copy_front;
use ea_io::{Failed, Sink, Source};
use ea_model::List;
use std::marker::Model;

/// A source of given bytes that gives at each call all that there is room for. It never fails, and
/// its count of faults is 0. Contracts see it as the bytes that are left.
#[derive(Drop)]
pub struct PlainSource {
    bytes: List<u8>,
    at: usize,
}

impl Model for PlainSource {
    ghost use Rattle.std.specs.Prelude.{◌≤◌, ℕ, List, drop, length};

    ghost Value = { List ℕ };

    ghost view = { λ s. drop s.at s.bytes.items };

    ghost invariant = { λ s. s.at ≤ length s.bytes.items };
}

impl PlainSource {
    /// A source of these bytes. It takes no memory.
    pub fn new(bytes: List<u8>) -> PlainSource
        ensures bytes { result ≡ bytes.items }
        ensures left { ⟦<PlainSource as Source>⟧.left result ≡ Some bytes.items }
        ensures faults { ⟦<PlainSource as Source>⟧.faults result ≡ 0 }
    {
        PlainSource { bytes, at: 0 }
    }
}

impl Source for PlainSource {
    ghost left = { λ s. Some s };

    ghost faults = { λ _. 0 };

    fn read(&mut self, buf: &mut [u8]) -> Result<usize, Failed>
        ensures reads { Reads (Some self.old) (Some self.new) 0 0 result buf.new }
        ensures all { result ≡ Ok (min (length self.old) (length buf.old)) }
    {
        let bytes = self.bytes.as_slice();
        let room = buf.len();
        let count = copy_front(&bytes[self.at..], buf, room);
        self.at += count;
        Ok(count)
    }
}

/// A sink that takes all bytes and keeps only their number. It never fails, and its count of faults
/// is 0. Contracts see it as that number, which stays at 2^64-1 once it is there.
#[derive(Drop)]
pub struct LengthSink {
    length: u64,
}

impl Model for LengthSink {
    ghost use Rattle.std.specs.Prelude.{ℕ};

    ghost Value = { ℕ };

    ghost view = { λ s. s.length };
}

impl LengthSink {
    /// A sink that has taken nothing. It takes no memory.
    pub fn new() -> LengthSink
        ensures length { result ≡ 0 }
        ensures size { ⟦<LengthSink as Sink>⟧.size result ≡ Some 0 }
        ensures faults { ⟦<LengthSink as Sink>⟧.faults result ≡ 0 }
    {
        LengthSink { length: 0 }
    }

    /// How many bytes it took, or 2^64-1 where there were more.
    pub fn len(&self) -> u64
        ensures length { result ≡ self.now }
        ensures size { ⟦<LengthSink as Sink>⟧.size self.now ≡ Some result }
    {
        self.length
    }
}

impl Sink for LengthSink {
    ghost taken = { λ _. None };

    ghost size = { λ s. Some s };

    ghost faults = { λ _. 0 };

    fn write(&mut self, piece: &[u8]) -> Result<usize, Failed>
        ensures writes { Writes None None (Some self.old) (Some self.new) 0 0
            result piece.now }
        ensures all { result ≡ Ok (length piece.now) }
        ensures length { self.new ≡ min (self.old + length piece.now) last_count }
    {
        self.length = self.length.saturating_add(piece.len() as u64);
        Ok(piece.len())
    }
}
