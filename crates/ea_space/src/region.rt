//! The region and its calls.
ghost use Rattle.std.specs.Prelude.{◌≡◌, ◌⊎◌, ℕ, ◌+◌, ◌-◌, ◌^◌, ◌<◌, ◌≤◌, ◌↔◌, [], All, Some};
ghost use Rattle.std.specs.Prelude.{Bool, IsNone, IfSome, IfOk, length};
ghost use Rattle.ea_model.specs.declared.units.TheConstants.{NUMBERS};
ghost use Rattle.ea_model.specs.Region.{runs_of, place_in, with_segment, cut_from, Laid};
ghost use Rattle.ea_model.specs.Region.{AreFree, IsTail};

use crate::walks::{index_of, start};
use ea_model::keyed::enter_within;
use ea_model::{NUMBERS, OutOfMemory, Segment};
use std::alloc::Global;
use std::marker::Model;

/// For how many taken segments memory is reserved.
const ROOM: usize = NUMBERS as usize + 1;

/// A region of pages, of which some are taken. Contracts see it as its first page, the page after
/// its last one, and the taken segments by rising base.
#[derive(Drop)]
pub struct Region {
    first: u32,
    end: u32,
    taken: Vec<Segment>,
}

impl Model for Region {
    ghost use Rattle.std.specs.Prelude.{◌≤◌, ◌+◌, vec_capacity};
    ghost use Rattle.ea_model.specs.declared.units.TheConstants.{NUMBERS};
    ghost use Rattle.ea_model.specs.Region.{Region, Laid};

    ghost Value = { Region };

    ghost view = { λ r. record { first = r.first; end = r.end; taken = r.taken.items } };

    ghost invariant = { λ r. record {
      room : NUMBERS + 1 ≤ vec_capacity r.taken;
      laid : Laid r.first r.end r.taken.items;
    } };
}

impl Region {
    /// A region of `pages` pages from the page `first` on, all free. It reserves the memory that
    /// later calls need.
    pub fn new(alloc: Global, first: u32, pages: u32) -> Result<Region, OutOfMemory>
        requires { first + pages < 2 ^ 32 }
        ensures { IfOk result (λ r. r ≡ record { first = first; end = first + pages; taken = [] }) }
    {
        Ok(Region {
            first,
            end: first + pages,
            taken: Vec::with_capacity(alloc, ROOM)?,
        })
    }

    /// Where a segment of `pages` pages is placed: at the front of the lowest free run that has as
    /// many, or, where segments fall, at the end of the highest one; or None where no free run has
    /// that many.
    pub fn find(&self, falling: bool, pages: u32) -> Option<u32>
        ensures found { result ≡ place_in falling pages (runs_of self.now) }
        ensures none { IsNone result ↔ All (λ r. r.pages < pages) (runs_of self.now) }

        // The pages found lie in the region and meet no taken segment.
        ensures inside { IfSome result (λ base. (self.now.first ≤ base)
            × (base + pages ≤ self.now.end)) }
        ensures apart { IfSome result (λ base. AreFree base pages self.now.taken) }
        ensures laid { Laid self.now.first self.now.end self.now.taken }
    {
        start(falling, pages, self.first, self.end, &self.taken)
    }

    /// Takes `pages` pages from `base` on, where `find` finds them.
    pub fn take(&mut self, base: u32, pages: u32)
        requires some { 1 ≤ pages }
        requires room { length self.old.taken < NUMBERS }
        requires found { (falling : Bool)
            × (place_in falling pages (runs_of self.old) ≡ Some base) }
        ensures taken { self.new ≡ record self.old
            { taken = with_segment (record { base = base; pages = pages }) self.old.taken } }

        // The pages taken lie in the region and met no taken segment.
        ensures inside { (self.old.first ≤ base) × (base + pages ≤ self.old.end) }
        ensures apart { AreFree base pages self.old.taken }
        ensures laid { Laid self.new.first self.new.end self.new.taken }
        ensures count { length self.new.taken ≡ length self.old.taken + 1 }

        // The pages taken can be given back, and so can what could be given back before.
        ensures whole { IsTail base pages self.new.taken }
        ensures others { (at n : ℕ) → IsTail at n self.old.taken → IsTail at n self.new.taken }
    {
        enter_within(Segment { base, pages }, &mut self.taken);
    }

    /// Makes the `pages` pages from `base` on free again. They are the whole or the tail of one
    /// taken segment, and one page at least.
    pub fn give_back(&mut self, base: u32, pages: u32)
        requires { IsTail base pages self.old.taken }
        ensures cut { self.new ≡ record self.old { taken = cut_from base self.old.taken } }
        ensures laid { Laid self.new.first self.new.end self.new.taken }
        ensures count { length self.new.taken ≤ length self.old.taken }

        // What is left of the segment can be given back, and so can other pages as before.
        ensures front { (at : ℕ) → at < base → IsTail at (base + pages - at) self.old.taken
            → IsTail at (base - at) self.new.taken }
        ensures others { (at n : ℕ) → (at + n ≤ base) ⊎ (base + pages ≤ at)
            → IsTail at n self.old.taken → IsTail at n self.new.taken }
    {
        let index = index_of(&self.taken, base);
        let segment = self.taken[index];
        if segment.pages == pages {
            self.taken.remove(index);
        } else {
            self.taken[index].pages = segment.pages - pages;
        }
    }
}
