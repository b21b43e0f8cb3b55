//! The singleblock carriers that an instance employs.
ghost use Rattle.std.specs.Prelude.{◌≡◌, ◌+◌, ◌*◌, ◌<◌, ◌≤◌, [], All, IfOk};
ghost use Rattle.std.specs.Prelude.{IfSome, IsSome, Some, false, length};
ghost use Rattle.ea_model.specs.declared.units.TheConstants.{HEADER_UNITS, NUMBERS, PAGE_UNITS};
ghost use Rattle.ea_model.specs.Content.{Content, allocated, released, resized};
ghost use Rattle.ea_model.specs.Instance.{block_in, changed, content_of, has_content};
ghost use Rattle.ea_model.specs.Instance.{with_content, without_content};
ghost use Rattle.ea_model.specs.Instance as instances;
ghost use Rattle.ea_laws.specs.Kept.{IsLaidOutAlone};

use crate::figures::{
    no_figures, with_block, with_carrier, with_size, without_block, without_carrier,
};
use ea_model::keyed::{enter_within, index_of, take_out};
use ea_model::{Figures, NUMBERS, OutOfMemory};
use ea_sbc::Sbc;
use std::alloc::Global;
use std::marker::Model;

/// The singleblock carriers that an instance employs, and their figures. Contracts see their
/// contents by rising number.
#[derive(Drop)]
pub struct Singles {
    list: Vec<Sbc>,
    figures: Figures,
}

impl Model for Singles {
    ghost use Rattle.std.specs.Prelude.{◌≡◌, ◌≤◌, List, vec_capacity};
    ghost use Rattle.ea_model.specs.declared.units.TheConstants.{NUMBERS};
    ghost use Rattle.ea_model.specs.Content.{Content};
    ghost use Rattle.ea_model.specs.Instance as instances;
    ghost use Rattle.ea_laws.specs.Kept.{IsRising};

    ghost Value = { List Content };

    ghost view = { λ s. s.list.items };

    ghost invariant = { λ s. record {
      room : NUMBERS ≤ vec_capacity s.list;
      rising : IsRising s.list.items;
      counted : s.figures ≡ instances.figures s.list.items;
    } };
}

impl Singles {
    /// No carriers. It takes the memory for as many as an instance has numbers.
    pub fn new(alloc: Global) -> Result<Singles, OutOfMemory>
        ensures { IfOk result (λ s. s ≡ []) }
    {
        Ok(Singles {
            list: Vec::with_capacity(alloc, NUMBERS as usize)?,
            figures: no_figures(),
        })
    }

    /// The carriers, by rising number.
    pub fn as_slice(&self) -> &[Sbc]
        ensures { result.now ≡ self.now }
    {
        &self.list
    }

    /// Blocks and carriers, and their units.
    pub fn figures(&self) -> Figures
        ensures { result ≡ instances.figures self.now }
    {
        self.figures
    }

    /// Puts a carrier with its block among the others, by its number.
    pub fn enter(&mut self, carrier: Sbc)
        requires laid { All IsLaidOutAlone self.old }
        requires block { length carrier.blocks ≡ 1 }
        requires room { length self.old < NUMBERS }
        requires number { has_content carrier.number self.old ≡ false }
        ensures { self.new ≡ with_content carrier self.old }
    {
        let figures = with_carrier(self.figures, carrier.units());
        self.figures = with_block(figures, carrier.allocated());
        enter_within(carrier, &mut self.list);
    }

    /// Releases the block at the offset in the carrier with the number.
    pub fn release(&mut self, number: u32, offset: u32)
        requires laid { All IsLaidOutAlone self.old }
        requires block { IsSome (block_in self.old
            (record { carrier = number; offset = offset })) }
        ensures { self.new ≡ changed (λ c. released c offset) number self.old }
    {
        let index = index_of(number, &self.list);
        self.figures = without_block(self.figures, self.list[index].allocated());
        self.list[index].release(offset);
    }

    /// The block of the carrier with the number has that many units and this name from now on.
    pub fn resize(&mut self, number: u32, size: u32, name: u32)
        requires laid { All IsLaidOutAlone self.old }
        requires few { length self.old ≤ NUMBERS }
        requires block { IsSome (block_in self.old
            (record { carrier = number; offset = HEADER_UNITS })) }
        requires fits { IfSome (content_of self.old number) (λ c. HEADER_UNITS + size ≤ c.units) }
        ensures { self.new ≡ changed (λ c. resized c HEADER_UNITS size name) number self.old }
    {
        let index = index_of(number, &self.list);
        self.figures = with_size(self.figures, self.list[index].allocated(), size);
        self.list[index].resize(size, name);
    }

    /// The carrier with the number has that many pages from now on: its block still fits, and they
    /// aren't more.
    pub fn shorten(&mut self, number: u32, pages: u32)
        requires there { IsSome (content_of self.old number) }
        requires fits { IfSome (content_of self.old number)
            (λ c. HEADER_UNITS + allocated c.blocks ≤ PAGE_UNITS * pages) }
        requires fewer { IfSome (content_of self.old number) (λ c. PAGE_UNITS * pages ≤ c.units) }
        ensures { self.new
            ≡ changed (λ c. record c { units = PAGE_UNITS * pages }) number self.old }
    {
        let index = index_of(number, &self.list);
        let figures = without_carrier(self.figures, self.list[index].units());
        self.list[index].shrink_to(pages);
        self.figures = with_carrier(figures, self.list[index].units());
    }

    /// Takes out the carrier with the number, whose block is gone.
    pub fn leave(&mut self, number: u32) -> Sbc
        requires { (c : Content) × (content_of self.old number ≡ Some c) × (c.blocks ≡ []) }
        ensures carrier { content_of self.old number ≡ Some result }
        ensures rest { self.new ≡ without_content number self.old }
    {
        let carrier = take_out(number, &mut self.list);
        self.figures = without_carrier(self.figures, carrier.units());
        carrier
    }
}
