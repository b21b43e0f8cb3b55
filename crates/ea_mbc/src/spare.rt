//! Carriers that are kept for the next ones.
ghost use Rattle.std.specs.Prelude.{◌≡◌, ◌+◌, ◌^◌, ◌≤◌, ◌<◌, [], ◌∷◌, All, IfOk, IfSome, false};
ghost use Rattle.std.specs.Prelude.{get_or, length, sum_by, vec_capacity, vec_len};
ghost use Rattle.ea_model.specs.Content.{Content};
ghost use Rattle.ea_model.specs.declared.carriers.Kind.TheVariants.{Multi};
ghost use Rattle.ea_model.specs.declared.units.TheConstants.{MAX_PAGES};
ghost use Rattle.ea_model.specs.Instance.{created_content};

use crate::carrier::Mbc;
use ea_model::{CarrierPlan, Inner, OutOfMemory, PAGE_UNITS};
use std::alloc::Global;

/// For how many carriers there is room once one was made.
const ROOM: usize = 16;

/// Carriers that were deallocated, of which the next ones may be made. They have no blocks, and
/// together `most` units at most. Which of them are kept is no promise.
#[derive(Drop)]
pub struct Spare {
    most: u32,
    carriers: Vec<Mbc>,
    ghost empty: { All (λ m. length m.blocks ≡ 0) carriers.items },
    ghost few: { sum_by (λ m. m.units) carriers.items ≤ most },
}

/// The units of the carriers.
fn units_of(carriers: &[Mbc]) -> u32
    requires fits { sum_by (λ m. m.units) carriers.now < 2 ^ 32 }
    ensures sum { result ≡ sum_by (λ m. m.units) carriers.now }
{
    let mut sum = 0;
    for carrier in carriers {
        sum += carrier.units();
    }
    sum
}

/// The place of a carrier with that many units.
fn place_of(units: u32, carriers: &[Mbc]) -> Option<usize>
    ensures within { IfSome result (λ place. place < length carriers.now) }
    ensures units { (d : Content)
        → IfSome result (λ place. (get_or carriers.now place d).units ≡ units) }
{
    for (place, carrier) in carriers.iter().enumerate() {
        if carrier.units() == units {
            return Some(place);
        }
    }
    None
}

/// Puts a carrier before the others, where there is room.
fn put_first(carrier: Mbc, carriers: &mut Vec<Mbc>)
    requires room { vec_len carriers.old < vec_capacity carriers.old }
    ensures items { carriers.new.items ≡ carrier ∷ carriers.old.items }
    ensures capacity { vec_capacity carriers.new ≡ vec_capacity carriers.old }
{
    if carriers.insert(0, carrier).is_err() {
        unreachable!();
    }
}

impl Spare {
    ghost use Rattle.ea_mbc.specs.Spares.{most_of};

    /// No carriers. Those that it keeps have `most` units at most together.
    pub fn new(alloc: Global, most: u32) -> Spare
        ensures { most_of result ≡ most }
    {
        Spare {
            most,
            carriers: Vec::new(alloc),
        }
    }

    /// Whether one with that many units is too much beside those that are kept.
    fn is_full(&self, units: u32) -> bool
        ensures room { result ≡ false
            → vec_len self.now.carriers < vec_capacity self.now.carriers }
        ensures few { result ≡ false
            → sum_by (λ m. m.units) self.now.carriers.items + units ≤ self.now.most }
    {
        self.carriers.len() >= self.carriers.capacity()
            || units > self.most - units_of(&self.carriers)
    }

    /// Takes a carrier that is deallocated: it is kept, in place of those that have been kept for
    /// longest, or dropped.
    pub fn keep(&mut self, carrier: Mbc)
        ensures { most_of self.new ≡ most_of self.old }
    {
        if !carrier.is_empty() {
            return;
        }
        let units = carrier.units();
        while self.is_full(units) {
            if self.carriers.is_empty() {
                return;
            }
            self.carriers.pop();
        }
        put_first(carrier, &mut self.carriers);
    }

    /// Takes a carrier with that many units out, if there is one.
    fn take(&mut self, units: u32) -> Option<Mbc>
        ensures units { IfSome result (λ m. m.units ≡ units) }
        ensures empty { IfSome result (λ m. m.blocks ≡ []) }
        ensures most { most_of self.new ≡ most_of self.old }
    {
        let place = place_of(units, &self.carriers)?;
        Some(self.carriers.remove(place))
    }

    /// The multiblock carrier of a plan, as `Mbc::new` makes it, of one with as many units that was
    /// kept, or of new memory.
    pub fn carrier(
        &mut self,
        alloc: Global,
        plan: CarrierPlan,
        owner: u32,
        inner: Inner,
    ) -> Result<Mbc, OutOfMemory>
        requires { (1 ≤ plan.pages) × (plan.pages ≤ MAX_PAGES) }
        ensures made { IfOk result (λ m. m ≡ created_content owner Multi plan) }
        ensures most { most_of self.new ≡ most_of self.old }
    {
        if let Some(carrier) = self.take(plan.pages * PAGE_UNITS) {
            return Ok(carrier.renewed(plan, owner));
        }
        if self.carriers.is_empty() {
            self.carriers.reserve(ROOM)?;
        }
        Mbc::new(alloc, plan, owner, inner)
    }
}
