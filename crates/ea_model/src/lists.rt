//! A list over a `Vec`, which contracts see as its items and the room that is left for more.
ghost use Rattle.std.specs.Prelude.{◌≡◌, ◌+◌, ◌-◌, ◌<◌, ◌≤◌, [], ◌∷◌, ◌++◌, codes, length};
ghost use Rattle.std.specs.Prelude.{slice_index_or, OnOk, OnErr};

use std::alloc::{AllocError, AllocFailed, Global};
use std::marker::Model;

/// There was no memory.
#[derive(Debug, Clone, Copy, PartialEq, Eq)]
pub struct OutOfMemory;

impl OutOfMemory {
    /// What is said of it.
    pub fn message(self) -> &'static str
        ensures { result.now ≡ codes "out of memory" }
    {
        "out of memory"
    }
}

impl From<AllocError> for OutOfMemory {
    fn from(_: AllocError) -> OutOfMemory {
        OutOfMemory
    }
}

impl<T: Drop> From<AllocFailed<T>> for OutOfMemory {
    ghost from_gives = { λ _ e. e ≡ record {} };

    fn from(_: AllocFailed<T>) -> OutOfMemory {
        OutOfMemory
    }
}

/// Items in order. Contracts see `items`, and beside them `room`: how many more can be added
/// without taking memory.
#[derive(Drop)]
pub struct List<T> {
    vec: Vec<T>,
}

impl<T> Model for List<T> {
    ghost use Rattle.ea_model.specs.Lists.{Items};
    ghost use Rattle.std.specs.Prelude.{◌-◌, vec_len, vec_capacity};

    ghost Value = { Items T };

    ghost view = { λ l. record { items = l.vec.items; room = vec_capacity l.vec - vec_len l.vec } };
}

impl<T> List<T> {
    /// No items. It takes no memory.
    pub fn new(alloc: Global) -> List<T>
        ensures { result.items ≡ [] }
    {
        List {
            vec: Vec::new(alloc),
        }
    }

    /// Makes room for at least `extra` more items. The items stay, whatever the answer.
    pub fn reserve(&mut self, extra: usize) -> Result<(), OutOfMemory>
        ensures items { self.new.items ≡ self.old.items }
        ensures ok { OnOk result (extra ≤ self.new.room) }
    {
        Ok(self.vec.reserve(extra)?)
    }

    /// Adds an item at the end. Where there is no memory, the item is dropped and the others stay.
    pub fn push(&mut self, item: T) -> Result<(), OutOfMemory>
    where
        T: Drop,
        ensures ok { OnOk result (self.new.items ≡ self.old.items ++ item ∷ []) }
        ensures err { OnErr result (self.new.items ≡ self.old.items) }
    {
        Ok(self.vec.push(item)?)
    }

    /// Adds an item at the end, where room was reserved. It takes no memory.
    pub fn push_within(&mut self, item: T)
    where
        T: Drop,
        requires { 0 < self.old.room }
        ensures items { self.new.items ≡ self.old.items ++ item ∷ [] }
        ensures room { self.new.room + 1 ≡ self.old.room }
    {
        let end = self.vec.len();
        match self.vec.insert(end, item) {
            Ok(()) => (),
            Err(_) => unreachable!(),
        }
    }

    /// Adds copies of these items at the end, all or none.
    pub fn extend_from_slice(&mut self, items: &[T]) -> Result<(), OutOfMemory>
    where
        T: Copy,
        ensures ok { OnOk result (self.new.items ≡ self.old.items ++ items.now) }
        ensures err { OnErr result (self.new.items ≡ self.old.items) }
    {
        Ok(self.vec.extend_from_slice(items)?)
    }

    /// How many items there are.
    pub fn len(&self) -> usize
        ensures { result ≡ length self.now.items }
    {
        self.vec.len()
    }

    /// The item at `index`, from 0.
    pub fn get(&self, index: usize) -> &T
        requires { index < length self.now.items }
        ensures { result.now ≡ slice_index_or self.now.items index result.now }
    {
        &self.vec[index]
    }

    /// The items in order.
    pub fn as_slice(&self) -> &[T]
        ensures { result.now ≡ self.now.items }
    {
        self.vec.as_slice()
    }

    /// The list of these items. It takes no memory.
    pub fn from_vec(items: Vec<T>) -> List<T>
        ensures { result.items ≡ items.items }
    {
        List { vec: items }
    }

    /// The items as a `Vec`. It takes no memory.
    pub fn into_vec(self) -> Vec<T>
        ensures { result.items ≡ self.items }
    {
        self.vec
    }
}
