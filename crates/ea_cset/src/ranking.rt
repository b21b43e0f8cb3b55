//! Carriers in an order, and the first of them that fits.
ghost use Rattle.std.specs.Prelude.{◌≡◌, ◌≢◌, ◌+◌, ◌^◌, ◌<◌, ◌≤◌, ◌↔◌, [], All, AllPairs, IfOk};
ghost use Rattle.std.specs.Prelude.{IfSome, IsNone, IsSome};
ghost use Rattle.std.specs.Prelude.{find, insert, length, option_map, vec_capacity, vec_len};
ghost use Rattle.std.specs.List.{position_or_len};
ghost use Rattle.ea_model.specs.Keyed.{changed_at, entered, has_key, is_after, item_at, IsBelow};
ghost use Rattle.ea_model.specs.Keyed.{without};
ghost use Rattle.ea_cset.specs.Ranks.{fits, rank_key, refit, AreFits, IsLastUpTo, IsWritten};

use crate::keys::CarrierFit;
use ea_model::OutOfMemory;
use ea_postree::PosTree;
use std::alloc::Global;
use std::marker::Model;

/// A carrier with the number that it stands by in an order.
#[derive(Debug, Clone, Copy, PartialEq, Eq)]
pub struct Rank {
    pub key: u64,
    pub carrier: CarrierFit,
}

/// Carriers by rising key, of which no two have the same, and their fits in a tree. Contracts see
/// the carriers with their keys, and how many there is room for.
#[derive(Drop)]
pub struct Ranking {
    room: u32,
    ranks: Vec<Rank>,
    tree: PosTree,
}

impl Model for Ranking {
    ghost use Rattle.std.specs.Prelude.{vec_capacity};
    ghost use Rattle.ea_cset.specs.Ranks.{Ranks, IsIndexed};

    ghost Value = { Ranks };

    ghost view = { λ r. record { ranks = r.ranks.items; room = r.room } };

    ghost invariant = { λ r. IsIndexed r.room (vec_capacity r.ranks) r.ranks.items r.tree };
}

impl Ranking {
    /// No carriers, and the memory for `room` of them.
    pub fn new(alloc: Global, room: u32) -> Result<Ranking, OutOfMemory>
        ensures { IfOk result (λ r. r ≡ record { ranks = []; room = room }) }
    {
        let tree = PosTree::new(alloc, room)?;
        Ok(Ranking {
            room,
            ranks: Vec::with_capacity(alloc, room as usize)?,
            tree,
        })
    }

    /// Puts a carrier among the others, by its key.
    pub fn enter(&mut self, rank: Rank)
        requires room { length self.old.ranks < self.old.room }
        requires new { All (λ r. r.key ≢ rank.key) self.old.ranks }
        ensures entered { self.new ≡ record self.old
            { ranks = entered rank_key rank self.old.ranks } }
        ensures count { length self.new.ranks ≡ length self.old.ranks + 1 }
    {
        let place = place_for(rank.key, &self.ranks);
        insert_within(place, rank, &mut self.ranks);
        write_fits(place, self.ranks.len(), &self.ranks, &mut self.tree);
    }

    /// Takes out the carrier with the key.
    pub fn leave(&mut self, key: u64)
        requires there { IsSome (item_at rank_key self.old.ranks key) }
        ensures rest { self.new ≡ record self.old
            { ranks = without rank_key key self.old.ranks } }
        ensures count { length self.new.ranks + 1 ≡ length self.old.ranks }
    {
        let place = rank_in(key, &self.ranks);
        self.ranks.remove(place);
        write_fits(place, self.ranks.len() + 1, &self.ranks, &mut self.tree);
    }

    /// Notes that the largest gap of the carrier with the key now has `fit` units.
    pub fn update(&mut self, key: u64, fit: u32)
        requires there { IsSome (item_at rank_key self.old.ranks key) }
        ensures updated { self.new ≡ record self.old
            { ranks = changed_at rank_key (refit fit) key self.old.ranks } }
        ensures count { length self.new.ranks ≡ length self.old.ranks }
    {
        let place = rank_in(key, &self.ranks);
        self.ranks[place].carrier.fit = fit;
        self.tree.set(place as u32, fit);
    }

    /// The first carrier whose largest gap has at least `need` units, or None where no carrier's
    /// has that many.
    pub fn first(&self, need: u32) -> Option<CarrierFit>
        ensures { result ≡ option_map (λ r. r.carrier) (find (fits need) self.now.ranks) }
    {
        if need == 0 {
            return self.ranks.first().map(|rank: &Rank| rank.carrier);
        }
        let place = self.tree.first_at_least(need)?;
        Some(self.ranks[place as usize].carrier)
    }

    /// The carrier of the greatest key of at most `key`, or None where all have greater ones.
    pub fn last_up_to(&self, key: u64) -> Option<Rank>
        ensures last { IfSome result (IsLastUpTo key self.now.ranks) }
        ensures none { IsNone result ↔ All (λ r. key < r.key) self.now.ranks }
    {
        last_in(key, &self.ranks)
    }
}

/// The place of the carrier with the key, which is there.
fn rank_in(key: u64, ranks: &[Rank]) -> usize
    requires there { IsSome (item_at rank_key ranks.now key) }
    requires rising { AllPairs (IsBelow rank_key) ranks.now }
    ensures index { result ≡ position_or_len (has_key rank_key key) ranks.now }
    ensures within { result < length ranks.now }
{
    match ranks.binary_search_by_key(&key, |rank| rank.key) {
        Ok(place) => place,
        Err(_) => unreachable!(),
    }
}

/// The place for a carrier with the key, which is not there.
fn place_for(key: u64, ranks: &[Rank]) -> usize
    requires new { All (λ r. r.key ≢ key) ranks.now }
    requires rising { AllPairs (IsBelow rank_key) ranks.now }
    ensures index { result ≡ position_or_len (is_after rank_key key) ranks.now }
    ensures within { result ≤ length ranks.now }
{
    match ranks.binary_search_by_key(&key, |rank| rank.key) {
        Ok(_) => unreachable!(),
        Err(place) => place,
    }
}

/// The carrier of the greatest key of at most `key`, or None where all have greater ones.
fn last_in(key: u64, ranks: &[Rank]) -> Option<Rank>
    requires rising { AllPairs (IsBelow rank_key) ranks.now }
    ensures last { IfSome result (IsLastUpTo key ranks.now) }
    ensures none { IsNone result ↔ All (λ r. key < r.key) ranks.now }
{
    match ranks.binary_search_by_key(&key, |rank| rank.key) {
        Ok(place) => Some(ranks[place]),
        Err(0) => None,
        Err(place) => Some(ranks[place - 1]),
    }
}

/// Puts a carrier at the place, where there is room.
fn insert_within(place: usize, rank: Rank, ranks: &mut Vec<Rank>)
    requires place { place ≤ length ranks.old.items }
    requires room { vec_len ranks.old < vec_capacity ranks.old }
    ensures items { ranks.new.items ≡ insert ranks.old.items place rank }
    ensures capacity { vec_capacity ranks.new ≡ vec_capacity ranks.old }
{
    if ranks.insert(place, rank).is_err() {
        unreachable!();
    }
}

/// Writes the fits of the places from `from` up to `to` into the tree.
fn write_fits(from: usize, to: usize, ranks: &[Rank], tree: &mut PosTree)
    requires within { to ≤ length tree.old }
    requires small { to < 2 ^ 32 }
    requires others { IsWritten from to ranks.now tree.old }
    ensures all { AreFits ranks.now tree.new }
    ensures long { length tree.new ≡ length tree.old }
{
    for place in from..to {
        let fit = ranks.get(place).map_or(0, |rank| rank.carrier.fit);
        tree.set(place as u32, fit);
    }
}
