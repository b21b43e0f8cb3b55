//! The tree and its calls.
ghost use Rattle.std.specs.Prelude.{◌≡◌, ◌+◌, ◌<◌, ◌≤◌, ◌↔◌, All, Contains, IfOk, IfSome, IsNone};
ghost use Rattle.std.specs.Prelude.{length, replicate, slice_index, slice_set, vec_capacity};
ghost use Rattle.ea_postree.specs.Firsts.{IsFirstAtLeast};
ghost use Rattle.ea_postree.specs.Maxima.{HasRoom, HasValues, IsTree};

use crate::paths::{first_leaf, spread, update_above};
use ea_model::OutOfMemory;
use std::alloc::Global;
use std::marker::Model;

/// Values by position. Contracts see them as a list.
///
/// The memory for all of them is reserved, and as much of it is used as the positions take that were
/// given a value: the tree has a leaf for each position up to the last of these, and may have none
/// for those after it, whose value is 0.
#[derive(Drop)]
pub struct PosTree {
    positions: u32,
    leaves: usize,
    maxima: Vec<u32>,
}

impl Model for PosTree {
    ghost use Rattle.std.specs.Prelude.{ℕ, List, vec_capacity};
    ghost use Rattle.ea_postree.specs.Maxima.{IsKept, values};

    ghost Value = { List ℕ };

    ghost view = { λ t. values t.positions t.leaves t.maxima.items };

    ghost invariant = { λ t. IsKept t.positions t.leaves (vec_capacity t.maxima) t.maxima.items };
}

impl PosTree {
    /// That many positions, each with the value 0. Later calls take no memory.
    pub fn new(alloc: Global, positions: u32) -> Result<PosTree, OutOfMemory>
        ensures { IfOk result (λ t. t ≡ replicate positions 0) }
    {
        let room = (positions as usize).next_power_of_two();
        let mut maxima = Vec::with_capacity(alloc, 2 * room)?;
        maxima.push_reserved(0);
        maxima.push_reserved(0);
        Ok(PosTree {
            positions,
            leaves: 1,
            maxima,
        })
    }

    /// The value of a position.
    pub fn value(&self, position: u32) -> u32
        requires { position < length self.now }
        ensures { result ≡ slice_index self.now position }
    {
        let place = position as usize;
        if place >= self.leaves {
            return 0;
        }
        self.maxima[self.leaves + place]
    }

    /// Gives a position another value.
    pub fn set(&mut self, position: u32, value: u32)
        requires { position < length self.old }
        ensures { self.new ≡ slice_set self.old position value }
    {
        let place = position as usize;
        self.leaves = widen(place, self.leaves, &mut self.maxima);
        let leaf = self.leaves + place;
        self.maxima[leaf] = value;
        update_above(leaf, self.leaves, &mut self.maxima);
    }

    /// The least position with at least `value`, or None where no position has that much.
    pub fn first_at_least(&self, value: u32) -> Option<u32>
        requires { 1 ≤ value }
        ensures found { IfSome result (IsFirstAtLeast value self.now) }
        ensures none { IsNone result ↔ All (λ v. v < value) self.now }
    {
        if self.maxima[1] < value {
            return None;
        }
        Some(first_leaf(value, self.leaves, &self.maxima) as u32)
    }

    /// The greatest value, or 0 where there are no positions.
    pub fn largest(&self) -> u32
        ensures bound { All (λ v. v ≤ result) self.now }
        ensures met { 0 < result → Contains self.now result }
    {
        self.maxima[1]
    }
}

/// Sees to it that the tree has a leaf at the place, and answers how many leaves it has then. Where
/// it gets more, they are twice as many at least.
fn widen(place: usize, leaves: usize, maxima: &mut Vec<u32>) -> usize
    requires room { HasRoom (place + 1) (vec_capacity maxima.old) }
    requires tree { IsTree leaves maxima.old.items }
    ensures reaches { place < result }
    ensures tree { IsTree result maxima.new.items }
    ensures same { HasValues leaves maxima.old.items result maxima.new.items }
    ensures capacity { vec_capacity maxima.old ≤ vec_capacity maxima.new }
{
    if place < leaves {
        return leaves;
    }
    let wider = (place + 1).next_power_of_two();
    if maxima.resize(2 * wider, 0).is_err() {
        unreachable!();
    }
    spread(leaves, wider, maxima);
    wider
}
