//! The carriers that an instance owns, and the pages of its region that they have.
ghost use Rattle.std.specs.Prelude.{◌≡◌, ◌+◌, ◌^◌, ◌<◌, ◌≤◌, [], Bool, IfOk, IfSome, IsSome, Some};
ghost use Rattle.std.specs.Prelude.{false};
ghost use Rattle.std.specs.Prelude.{length};
ghost use Rattle.ea_model.specs.declared.units.TheConstants.{NUMBERS};
ghost use Rattle.ea_model.specs.Instance.{is_used, own_at, planned_own, segments, unused_from};
ghost use Rattle.ea_model.specs.Instance.{with_own, without_own};
ghost use Rattle.ea_model.specs.Keyed.{changed_at};
ghost use Rattle.ea_model.specs.Region.{place_in, runs};

use ea_model::keyed::{enter_within, index_of, item_of, take_out};
use ea_model::{CarrierPlan, NUMBERS, OutOfMemory, OwnCarrier};
use ea_space::Region;
use std::alloc::Global;
use std::marker::Model;

/// The carriers that an instance owns, and its region, of which they have the taken pages.
/// Contracts see the region's first page, the page after its last one, and the carriers by rising
/// number.
#[derive(Drop)]
pub struct OwnCarriers {
    list: Vec<OwnCarrier>,
    region: Region,
}

impl Model for OwnCarriers {
    ghost use Rattle.std.specs.Prelude.{vec_capacity};
    ghost use Rattle.ea_instance.specs.Own.{OwnList, HaveSegments};

    ghost Value = { OwnList };

    ghost view = { λ o. record {
      first = o.region.first;
      end = o.region.end;
      carriers = o.list.items;
    } };

    ghost invariant = { λ o. HaveSegments (vec_capacity o.list) o.list.items o.region };
}

impl OwnCarriers {
    /// No carriers, and a region of `pages` pages from page `first` on. It takes the memory for as
    /// many carriers as an instance has numbers.
    pub fn new(alloc: Global, first: u32, pages: u32) -> Result<OwnCarriers, OutOfMemory>
        requires { first + pages < 2 ^ 32 }
        ensures { IfOk result (λ o. o ≡ record {
          first = first;
          end = first + pages;
          carriers = [];
        }) }
    {
        let region = Region::new(alloc, first, pages)?;
        Ok(OwnCarriers {
            list: Vec::with_capacity(alloc, NUMBERS as usize)?,
            region,
        })
    }

    /// The lowest of the instance's numbers, from `first` on, that isn't in use.
    pub fn unused_number(&self, first: u32) -> Option<u32>
        requires { first + NUMBERS < 2 ^ 32 }
        ensures { result ≡ unused_from NUMBERS first self.now.carriers }
    {
        let last = first + (NUMBERS - 1);
        let mut number = first;
        // The carriers stand by rising number, so one pass finds it.
        for carrier in &self.list {
            if number < carrier.number {
                break;
            }
            if number == carrier.number {
                if number == last {
                    return None;
                }
                number += 1;
            }
        }
        Some(number)
    }

    /// Whether the carrier with the number is one of them.
    pub fn has(&self, number: u32) -> bool
        ensures { result ≡ is_used number self.now.carriers }
    {
        item_of(number, &self.list).is_some()
    }

    /// Where a segment of that many pages is placed, which falls or not.
    pub fn free_run(&self, falling: bool, pages: u32) -> Option<u32>
        ensures { result ≡ place_in falling pages
            (runs self.now.first self.now.end (segments self.now.carriers)) }
    {
        self.region.find(falling, pages)
    }

    /// Adds the carrier of a plan, where `free_run` finds its pages.
    pub fn add(&mut self, plan: CarrierPlan)
        requires some { 1 ≤ plan.pages }
        requires room { length self.old.carriers < NUMBERS }
        requires number { is_used plan.number self.old.carriers ≡ false }
        requires found { (falling : Bool) × (place_in falling plan.pages
            (runs self.old.first self.old.end (segments self.old.carriers)) ≡ Some plan.base) }
        ensures { self.new ≡ record self.old {
          carriers = with_own (planned_own plan) self.old.carriers;
        } }
    {
        self.region.take(plan.base, plan.pages);
        let carrier = OwnCarrier {
            number: plan.number,
            base: plan.base,
            pages: plan.pages,
        };
        enter_within(carrier, &mut self.list);
    }

    /// Takes out the carrier with the number, which is there. Its pages are free again.
    pub fn remove(&mut self, number: u32)
        requires { IsSome (own_at self.old.carriers number) }
        ensures { self.new ≡ record self.old { carriers = without_own number self.old.carriers } }
    {
        let carrier = take_out(number, &mut self.list);
        self.region.give_back(carrier.base, carrier.pages);
    }

    /// The carrier with the number has that many pages from now on, which are fewer. Its last pages
    /// are free again.
    pub fn shorten(&mut self, number: u32, pages: u32)
        requires there { IsSome (own_at self.old.carriers number) }
        requires some { 1 ≤ pages }
        requires fewer { IfSome (own_at self.old.carriers number) (λ o. pages < o.pages) }
        ensures { self.new ≡ record self.old {
          carriers = changed_at (λ o. o.number) (λ o. record o { pages = pages }) number
              self.old.carriers;
        } }
    {
        let index = index_of(number, &self.list);
        let carrier = self.list[index];
        self.region
            .give_back(carrier.base + pages, carrier.pages - pages);
        self.list[index].pages = pages;
    }
}
