//! A source and a sink in memory that work in pieces and fail at chosen calls.
ghost use Rattle.std.specs.Prelude.{◌≡◌, ◌==◌, ◌+◌, ◌≤◌, ◌||◌, ◌&&◌, nat_lt, min, length, []};
ghost use Rattle.std.specs.Prelude.{Some, None, is_err, IfOk, OnErr};
ghost use Rattle.std.specs.List.{list_any};
ghost use Rattle.ea_io.specs.Calls.{Reads, Writes};
ghost use Rattle.ea_io.specs.Counts.{next_count};

use crate::pieces::{copy_front, is_listed};
use ea_io::{Failed, Sink, Source};
use ea_model::{List, OutOfMemory};
use std::alloc::Global;
use std::marker::Model;

/// A source of given bytes, which come in pieces. Calls that its maker chose fail. Contracts see
/// the bytes left, the most bytes that a call gives, the numbers of the calls that fail, how many
/// calls were made and how many of them failed.
#[derive(Drop)]
pub struct MemSource {
    bytes: List<u8>,
    at: usize,
    piece: usize,
    failing: List<u32>,
    calls: u64,
    faults: u64,
}

impl Model for MemSource {
    ghost use Rattle.std.specs.Prelude.{◌≤◌, drop, length};
    ghost use Rattle.ea_trials_io.specs.Memory.{Giving};

    ghost Value = { Giving };

    ghost view = { λ s. record {
      left = drop s.at s.bytes.items;
      piece = s.piece;
      failing = s.failing.items;
      calls = s.calls;
      faults = s.faults;
    } };

    ghost invariant = { λ s. (s.at ≤ length s.bytes.items) × (1 ≤ s.piece) };
}

impl MemSource {
    /// A source of these bytes. The calls numbered in `failing`, from 1, fail and give nothing;
    /// each other call gives the least of `piece`, the buffer's length and the number of bytes
    /// left. It takes no memory.
    pub fn new(bytes: List<u8>, piece: usize, failing: List<u32>) -> MemSource
        requires { 1 ≤ piece }
        ensures made { result ≡ record {
          left = bytes.items;
          piece = piece;
          failing = failing.items;
          calls = 0;
          faults = 0;
        } }
        ensures left { ⟦<MemSource as Source>⟧.left result ≡ Some bytes.items }
        ensures faults { ⟦<MemSource as Source>⟧.faults result ≡ 0 }
    {
        MemSource {
            bytes,
            at: 0,
            piece,
            failing,
            calls: 0,
            faults: 0,
        }
    }
}

impl Source for MemSource {
    ghost left = { λ s. Some s.left };

    ghost faults = { λ s. s.faults };

    fn read(&mut self, buf: &mut [u8]) -> Result<usize, Failed>
        ensures reads { Reads (Some self.old.left) (Some self.new.left) self.old.faults
            self.new.faults result buf.new }
        ensures least { IfOk result (λ n.
            n ≡ min (min (length self.old.left) (length buf.old)) self.old.piece) }
        ensures listed { is_err result ≡ list_any (λ n. n == self.new.calls) self.old.failing }
        ensures calls { self.new.calls ≡ next_count self.old.calls }
        ensures failing { self.new.failing ≡ self.old.failing }
        ensures piece { self.new.piece ≡ self.old.piece }
    {
        self.calls = self.calls.saturating_add(1);
        if is_listed(self.failing.as_slice(), self.calls) {
            self.faults = self.faults.saturating_add(1);
            return Err(Failed);
        }
        let bytes = self.bytes.as_slice();
        let count = copy_front(&bytes[self.at..], buf, self.piece);
        self.at += count;
        Ok(count)
    }
}

/// A sink that keeps the bytes that it takes, in pieces, up to a given number of bytes. Calls that
/// its maker chose fail. Contracts see the bytes taken, for how many more there is room, the most
/// bytes that a call takes, the numbers of the calls that fail, how many calls were made and how
/// many of them failed.
#[derive(Drop)]
pub struct MemSink {
    taken: Vec<u8>,
    room: usize,
    piece: usize,
    failing: List<u32>,
    calls: u64,
    faults: u64,
}

impl Model for MemSink {
    ghost use Rattle.std.specs.Prelude.{◌≤◌, ◌+◌, vec_len, vec_capacity};
    ghost use Rattle.ea_trials_io.specs.Memory.{Taking};

    ghost Value = { Taking };

    ghost view = { λ s. record {
      taken = s.taken.items;
      room = s.room;
      piece = s.piece;
      failing = s.failing.items;
      calls = s.calls;
      faults = s.faults;
    } };

    ghost invariant = { λ s. (vec_len s.taken + s.room ≤ vec_capacity s.taken) × (1 ≤ s.piece) };
}

impl MemSink {
    /// A sink with room for `room` bytes, for which it takes the memory here. The calls numbered in
    /// `failing`, from 1, fail, and so does a nonempty piece where no room is left; each other call
    /// takes the least of `piece`, the offered length and the room left.
    pub fn new(
        alloc: Global,
        room: usize,
        piece: usize,
        failing: List<u32>,
    ) -> Result<MemSink, OutOfMemory>
        requires { 1 ≤ piece }
        ensures made { IfOk result (λ s. s ≡ record {
          taken = [];
          room = room;
          piece = piece;
          failing = failing.items;
          calls = 0;
          faults = 0;
        }) }
        ensures taken { IfOk result (λ s. ⟦<MemSink as Sink>⟧.taken s ≡ Some []) }
        ensures faults { IfOk result (λ s. ⟦<MemSink as Sink>⟧.faults s ≡ 0) }
    {
        Ok(MemSink {
            taken: Vec::with_capacity(alloc, room)?,
            room,
            piece,
            failing,
            calls: 0,
            faults: 0,
        })
    }

    /// The bytes that it took, in order.
    pub fn taken(&self) -> &[u8]
        ensures bytes { result.now ≡ self.now.taken }
        ensures taken { ⟦<MemSink as Sink>⟧.taken self.now ≡ Some result.now }
    {
        self.taken.as_slice()
    }
}

impl Sink for MemSink {
    ghost taken = { λ s. Some s.taken };

    ghost size = { λ _. None };

    ghost faults = { λ s. s.faults };

    fn write(&mut self, piece: &[u8]) -> Result<usize, Failed>
        ensures writes { Writes (Some self.old.taken) (Some self.new.taken) None None
            self.old.faults self.new.faults result piece.now }
        ensures least { IfOk result (λ n.
            n ≡ min (min self.old.room (length piece.now)) self.old.piece) }
        ensures listed { is_err result ≡ (list_any (λ n. n == self.new.calls) self.old.failing
            || ((self.old.room == 0) && nat_lt 0 (length piece.now))) }
        ensures room { IfOk result (λ n. self.new.room + n ≡ self.old.room) }
        ensures full { OnErr result (self.new.room ≡ self.old.room) }
        ensures calls { self.new.calls ≡ next_count self.old.calls }
        ensures failing { self.new.failing ≡ self.old.failing }
        ensures piece { self.new.piece ≡ self.old.piece }
    {
        self.calls = self.calls.saturating_add(1);
        let listed = is_listed(self.failing.as_slice(), self.calls);
        if listed || (self.room == 0 && !piece.is_empty()) {
            self.faults = self.faults.saturating_add(1);
            return Err(Failed);
        }
        let count = self.room.min(piece.len()).min(self.piece);
        self.room -= count;
        match self.taken.extend_from_slice(&piece[..count]) {
            Ok(()) => Ok(count),
            Err(_) => unreachable!(),
        }
    }
}
