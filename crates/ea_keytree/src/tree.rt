//! The keys and their calls.
ghost use Rattle.std.specs.Prelude.{◌≡◌, ◌≢◌, ℕ, ◌+◌, ◌^◌, ◌<◌, ◌≤◌, ◌↔◌, [], ◌∷◌, ◌++◌, length};
ghost use Rattle.std.specs.Prelude.{replicate, slice_index_or, slice_set, Some, None, IfOk, OnOk};
ghost use Rattle.std.specs.Prelude.{OnErr, IfSome, IsNone, All, Contains};
ghost use Rattle.ea_keytree.specs.Keys.{IsFirstFrom, IsLastUpTo};

use crate::nodes::{Node, put_in, take_out};
use crate::searches::{ABOVE, Reached, first_from, last_up_to};
use ea_model::OutOfMemory;
use std::alloc::Global;
use std::marker::Model;

/// A key and the position that holds it.
#[derive(Debug, Clone, Copy, PartialEq, Eq)]
pub struct Found {
    pub key: u64,
    pub position: u32,
}

/// Keys by position. Contracts see what keys are below, the key that each position holds, None
/// where it holds none, and how many positions more there can be without taking memory.
#[derive(Drop)]
pub struct KeyTree {
    width: u64,
    root: u32,
    nodes: Vec<Node>,
}

impl Model for KeyTree {
    ghost use Rattle.std.specs.Prelude.{◌-◌, ◌^◌, min, vec_len, vec_capacity};
    ghost use Rattle.ea_keytree.specs.Keys.{KeysHeld};
    ghost use Rattle.ea_keytree.specs.Trees.{IsKeyTree, held_in};

    ghost Value = { KeysHeld };

    ghost view = { λ t. record {
      width = t.width;
      keys = held_in t.nodes.items;
      room = min (vec_capacity t.nodes) (2 ^ 32 - 1) - vec_len t.nodes;
    } };

    ghost invariant = { λ t. IsKeyTree t.width t.nodes.items t.root };
}

/// The node of a position that holds no key.
const FREE: Node = Node {
    key: ABOVE,
    low: 0,
    high: 0,
};

impl KeyTree {
    /// No positions, and no room. Keys are to be below `width`. It takes no memory.
    pub fn new(alloc: Global, width: u64) -> KeyTree
        ensures { result ≡ record { width = width; keys = []; room = 0 } }
    {
        KeyTree {
            width,
            root: 0,
            nodes: Vec::new(alloc),
        }
    }

    /// That many positions, which hold no key. Keys are to be below `width`.
    pub fn with_positions(alloc: Global, width: u64, positions: u32) -> Result<KeyTree, OutOfMemory>
        ensures keys { IfOk result (λ t. t.keys ≡ replicate positions None) }
        ensures width { IfOk result (λ t. t.width ≡ width) }
    {
        Ok(KeyTree {
            width,
            root: 0,
            nodes: vec![in alloc; FREE; positions as usize]?,
        })
    }

    /// Makes room for at least `extra` more positions. There can be 2^32 - 1 at most.
    pub fn reserve(&mut self, extra: u32) -> Result<(), OutOfMemory>
        ensures ok { OnOk result (extra ≤ self.new.room) }
        ensures keys { self.new.keys ≡ self.old.keys }
        ensures width { self.new.width ≡ self.old.width }
        ensures room { self.old.room ≤ self.new.room }
        ensures err { OnErr result (self.new ≡ self.old) }

        // It fails only where there is less room than was asked for.
        ensures full { OnErr result (self.old.room < extra) }
    {
        if extra as usize > u32::MAX as usize - self.nodes.len() {
            return Err(OutOfMemory);
        }
        Ok(self.nodes.reserve(extra as usize)?)
    }

    /// How many positions there are.
    pub fn len(&self) -> u32
        ensures { result ≡ length self.now.keys }
    {
        self.nodes.len() as u32
    }

    /// Adds a position, which holds no key, where room was reserved. It takes no memory.
    pub fn push(&mut self)
        requires { 0 < self.old.room }
        ensures keys { self.new.keys ≡ self.old.keys ++ None ∷ [] }
        ensures width { self.new.width ≡ self.old.width }
        ensures room { self.new.room + 1 ≡ self.old.room }
    {
        self.nodes.push_reserved(FREE);
    }

    /// Notes that the position, which holds no key, now holds the key, which no other holds.
    pub fn insert(&mut self, key: u64, position: u32)
        requires within { position < length self.old.keys }
        requires free { slice_index_or self.old.keys position None ≡ None }
        requires key { key < self.old.width }
        requires new { All (λ k. k ≢ Some key) self.old.keys }
        ensures { self.new ≡ record self.old {
          keys = slice_set self.old.keys position (Some key);
        } }
    {
        self.nodes[position as usize] = Node {
            key,
            low: 0,
            high: 0,
        };
        self.root = put_in(&mut self.nodes, self.root, 0, self.width, key, position);
    }

    /// Takes out a key that is held, and answers the position that held it.
    pub fn remove(&mut self, key: u64) -> u32
        requires { Contains self.old.keys (Some key) }
        ensures within { result < length self.old.keys }
        ensures held { slice_index_or self.old.keys result None ≡ Some key }
        ensures keys { self.new ≡ record self.old {
          keys = slice_set self.old.keys result None;
        } }
    {
        let taken = take_out(&mut self.nodes, self.root, 0, self.width, key);
        self.root = taken.link;
        self.nodes[taken.position as usize].key = ABOVE;
        taken.position
    }

    /// The least key of at least `bound`, with its position, or None where none is that great.
    pub fn first_from(&self, bound: u64) -> Option<Found>
        ensures found { IfSome result (IsFirstFrom bound self.now.keys) }
        ensures none { IsNone result
            ↔ ((q k : ℕ) → slice_index_or self.now.keys q None ≡ Some k → k < bound) }
    {
        let none = Found {
            key: ABOVE,
            position: 0,
        };
        let first = first_from(&self.nodes, self.root, 0, self.width, bound, none);
        if first.key == ABOVE {
            return None;
        }
        Some(first)
    }

    /// The greatest key of at most `bound`, with its position, or None where none is that small.
    pub fn last_up_to(&self, bound: u64) -> Option<Found>
        ensures found { IfSome result (IsLastUpTo bound self.now.keys) }
        ensures none { IsNone result
            ↔ ((q k : ℕ) → slice_index_or self.now.keys q None ≡ Some k → bound < k) }
    {
        let none = Reached {
            after: 0,
            position: 0,
        };
        let last = last_up_to(&self.nodes, self.root, 0, self.width, bound, none);
        if last.after == 0 {
            return None;
        }
        Some(Found {
            key: last.after - 1,
            position: last.position,
        })
    }
}
