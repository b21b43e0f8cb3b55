//! The set and its calls.
ghost use Rattle.std.specs.Prelude.{◌≡◌, ◌≢◌, ℕ, ◌+◌, ◌<◌, ◌≤◌, ◌↔◌, [], ◌==◌};
ghost use Rattle.std.specs.Prelude.{if◌then◌else◌, All, AllPairs, Some, None};
ghost use Rattle.std.specs.Prelude.{IsNone, IfSome, IfOk, length, option_map};
ghost use Rattle.ea_model.specs.Keyed.{entered, without};
ghost use Rattle.ea_cset.specs.declared.keys.Order.TheVariants.{Address};
ghost use Rattle.ea_cset.specs.Carriers.{number_of, carrier_of, with_fit, refitted};
ghost use Rattle.ea_cset.specs.Carriers.{comes_first, first_number, IsBefore, IsFirstOf, StandsIn};
ghost use Rattle.ea_cset.specs.Carriers.{carrier_found, number_found};

use crate::keys::{CarrierFit, CarrierKey, Found, Order, order_key};
use crate::places::find_in;
use crate::ranking::{Rank, Ranking};
use ea_model::OutOfMemory;
use ea_model::keyed::enter_within;
use std::alloc::Global;
use std::marker::Model;

/// A set of carriers, of which no two have the same number or the same base. It keeps them by
/// rising number, and in one order with a tree of their fits. Contracts see it as that order, its
/// carriers by rising number, and how many carriers it has room for.
#[derive(Drop)]
pub struct CarrierSet {
    room: u32,
    order: Order,
    held: Vec<CarrierFit>,
    ranking: Ranking,
}

impl Model for CarrierSet {
    ghost use Rattle.std.specs.Prelude.{vec_capacity};
    ghost use Rattle.ea_cset.specs.Carriers.{Carriers};
    ghost use Rattle.ea_cset.specs.Ranks.{IsKept};

    ghost Value = { Carriers };

    ghost view = { λ s. record { order = s.order; held = s.held.items; room = s.room } };

    ghost invariant = { λ s. IsKept s.order s.room (vec_capacity s.held) s.held.items s.ranking };
}

impl CarrierSet {
    /// An empty set in the order, with room for `room` carriers. It reserves the memory that later
    /// calls need.
    pub fn new(alloc: Global, order: Order, room: u32) -> Result<CarrierSet, OutOfMemory>
        ensures { IfOk result (λ s. s ≡ record { order = order; held = []; room = room }) }
    {
        let ranking = Ranking::new(alloc, room)?;
        Ok(CarrierSet {
            room,
            order,
            held: Vec::with_capacity(alloc, room as usize)?,
            ranking,
        })
    }

    /// Adds a carrier whose largest gap has `fit` units.
    pub fn add(&mut self, key: CarrierKey, fit: u32)
        requires room { length self.old.held < self.old.room }
        requires number { All (λ h. h.key.number ≢ key.number) self.old.held }
        requires base { All (λ h. h.key.base ≢ key.base) self.old.held }
        ensures added { self.new ≡ record self.old
            { held = entered number_of (record { key = key; fit = fit }) self.old.held } }
        ensures count { length self.new.held ≡ length self.old.held + 1 }
        ensures rising { AllPairs IsBefore self.new.held }

        // The carrier is found by its number now, and the others are as before.
        ensures carriers { (n : ℕ)
            → carrier_of self.new.held n ≡
            (if n == key.number then Some (record { key = key; fit = fit }) else carrier_of
            self.old.held n) }
    {
        let carrier = CarrierFit { key, fit };
        self.ranking.enter(Rank {
            key: order_key(self.order, carrier),
            carrier,
        });
        enter_within(carrier, &mut self.held);
    }

    /// The carrier with the number, or None exactly where no such carrier is held.
    pub fn find(&self, number: u32) -> Option<Found>
        ensures carrier { carrier_found result ≡ carrier_of self.now.held number }
        ensures stands { IfSome result (StandsIn self.now.held) }
        ensures rising { AllPairs IsBefore self.now.held }
    {
        let index = find_in(number, &self.held)?;
        Some(self.at(index))
    }

    /// The carrier at a place among the carriers, by rising number.
    pub fn at(&self, index: usize) -> Found
        requires { index < length self.now.held }
        ensures index { result.index ≡ index }
        ensures stands { StandsIn self.now.held result }
    {
        Found {
            index,
            carrier: self.held[index],
        }
    }

    /// Takes the carrier that was found out of the set.
    pub fn remove(&mut self, found: Found)
        requires { StandsIn self.old.held found }
        ensures removed { self.new ≡ record self.old
            { held = without number_of found.carrier.key.number self.old.held } }
        ensures count { length self.new.held + 1 ≡ length self.old.held }
        ensures rising { AllPairs IsBefore self.new.held }

        // Its number is free now, and the other carriers are as before.
        ensures carriers { (n : ℕ)
            → carrier_of self.new.held n ≡
            (if n == found.carrier.key.number then None else carrier_of self.old.held n) }
    {
        self.held.remove(found.index);
        self.ranking.leave(order_key(self.order, found.carrier));
    }

    /// Notes that the largest gap of the carrier that was found now has `fit` units.
    pub fn update(&mut self, found: Found, fit: u32)
        requires { StandsIn self.old.held found }
        ensures updated { self.new ≡ record self.old
            { held = refitted found.carrier.key.number fit self.old.held } }
        ensures count { length self.new.held ≡ length self.old.held }
        ensures rising { AllPairs IsBefore self.new.held }

        // The carrier keeps its key, and the others are as before.
        ensures carriers { (n : ℕ) → carrier_of self.new.held n
            ≡ option_map (with_fit found.carrier.key.number fit) (carrier_of self.old.held n) }
    {
        self.ranking
            .update(order_key(self.order, found.carrier), fit);
        self.held[found.index].fit = fit;
    }

    /// The first carrier in the set's order whose largest gap has at least `need` units, or None
    /// where no carrier's has that many.
    pub fn first(&self, need: u32) -> Option<Found>
        ensures found { number_found result
            ≡ first_number (comes_first self.now.order) need self.now.held }
        ensures none { IsNone result ↔ All (λ h. h.fit < need) self.now.held }

        // The carrier found is one that fits, and none that fits comes before it.
        ensures first { IfSome result
            (λ f. IsFirstOf (comes_first self.now.order) need self.now.held f.carrier.key.number) }
        ensures stands { IfSome result (StandsIn self.now.held) }
        ensures rising { AllPairs IsBefore self.now.held }
    {
        self.found(self.ranking.first(need))
    }

    /// The carrier of the highest base of at most `base`, or None where all have higher ones. The
    /// set's order is that by address.
    pub fn last_up_to(&self, base: u32) -> Option<Found>
        requires { self.now.order ≡ Address }
        ensures last { IfSome result
            (λ f. (f.carrier.key.base ≤ base)
            × All (λ h. h.key.base ≤ base → h.key.base ≤ f.carrier.key.base) self.now.held) }
        ensures none { IsNone result ↔ All (λ h. base < h.key.base) self.now.held }
        ensures stands { IfSome result (StandsIn self.now.held) }
    {
        let last = self.ranking.last_up_to(base as u64);
        self.found(last.map(|rank: Rank| rank.carrier))
    }

    /// What is held of a carrier, with its place.
    fn found(&self, first: Option<CarrierFit>) -> Option<Found>
        requires { IfSome first (λ h. carrier_of self.now.held h.key.number ≡ Some h) }
        ensures carrier { carrier_found result ≡ first }
        ensures stands { IfSome result (StandsIn self.now.held) }
    {
        self.find(first?.key.number)
    }
}
