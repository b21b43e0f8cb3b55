//! The carrier and its calls.
ghost use Rattle.std.specs.Prelude.{◌≡◌, ◌+◌, ◌-◌, ◌*◌, ◌≤◌, Some, IsSome, [], length, option_map};
ghost use Rattle.ea_model.specs.declared.carriers.Block.{Block};
ghost use Rattle.ea_model.specs.declared.carriers.Kind.TheVariants.{Single};
ghost use Rattle.ea_model.specs.declared.units.TheConstants.{HEADER_UNITS, MAX_PAGES};
ghost use Rattle.ea_model.specs.declared.units.TheConstants.{MAX_UNITS, PAGE_UNITS};
ghost use Rattle.ea_model.specs.Content.{allocated, block_at, free_units, gaps_of};
ghost use Rattle.ea_model.specs.Content.{largest, named, released, resized};
ghost use Rattle.ea_model.specs.Instance.{created_single};
ghost use Rattle.ea_sbc.specs.Blocks.{blocks_of};

use ea_model::keyed::Keyed;
use ea_model::{Block, CarrierPlan, HEADER_UNITS, PAGE_UNITS};
use std::marker::Model;

/// A carrier of one block. Contracts see it as its content: number, owner, base, birth, units and
/// the one block, directly behind its header, until it is released. What the block leaves of the
/// carrier is its tail, its one gap, in which nothing is ever placed.
#[derive(Drop)]
pub struct Sbc {
    number: u32,
    owner: u32,
    base: u32,
    birth: u32,
    pages: u32,
    block: Option<Block>,
}

impl Model for Sbc {
    ghost use Rattle.std.specs.Prelude.{◌+◌, ◌*◌, ◌≤◌};
    ghost use Rattle.ea_model.specs.declared.carriers.Kind.TheVariants.{Single};
    ghost use Rattle.ea_model.specs.declared.units.TheConstants.{HEADER_UNITS};
    ghost use Rattle.ea_model.specs.declared.units.TheConstants.{MAX_PAGES, PAGE_UNITS};
    ghost use Rattle.ea_model.specs.Content.{Content, allocated};
    ghost use Rattle.ea_sbc.specs.Blocks.{blocks_of};

    ghost Value = { Content };

    ghost view = { λ c. record {
      number = c.number;
      owner = c.owner;
      base = c.base;
      birth = c.birth;
      units = PAGE_UNITS * c.pages;
      kind = Single;
      blocks = blocks_of c.block;
    } };

    ghost invariant = { λ c. (HEADER_UNITS + allocated (blocks_of c.block) ≤ PAGE_UNITS * c.pages)
        × (c.pages ≤ MAX_PAGES) };
}

impl Keyed for Sbc {
    ghost key_of = { λ c. c.number };

    fn key(&self) -> u32 {
        self.number
    }
}

impl Sbc {
    /// The singleblock carrier of a plan, with its block. `owner` is the instance that creates it.
    pub fn new(plan: CarrierPlan, owner: u32, block: Block) -> Sbc
        requires fits { HEADER_UNITS + block.size ≤ PAGE_UNITS * plan.pages }
        requires pages { plan.pages ≤ MAX_PAGES }
        ensures { result ≡ created_single owner plan block.size block.name }
    {
        Sbc {
            number: plan.number,
            owner,
            base: plan.base,
            birth: plan.birth,
            pages: plan.pages,
            block: Some(block),
        }
    }

    /// Its block has that many units and this name from now on.
    pub fn resize(&mut self, size: u32, name: u32)
        requires { HEADER_UNITS + size ≤ self.old.units }
        ensures block { self.new ≡ record self.old {
          blocks = blocks_of (Some (record { name = name; size = size }));
        } }
        ensures resized { IsSome (block_at self.old.blocks HEADER_UNITS)
            → self.new ≡ resized self.old HEADER_UNITS size name }
    {
        self.block = Some(Block { name, size });
    }

    /// It has that many pages from now on: its block still fits, and they aren't more.
    pub fn shrink_to(&mut self, pages: u32)
        requires fits { HEADER_UNITS + allocated self.old.blocks ≤ PAGE_UNITS * pages }
        requires fewer { PAGE_UNITS * pages ≤ self.old.units }
        ensures { self.new ≡ record self.old { units = PAGE_UNITS * pages } }
    {
        self.pages = pages;
    }

    /// Takes out its block, which begins at `offset`.
    pub fn release(&mut self, offset: u32)
        requires { IsSome (block_at self.old.blocks offset) }
        ensures released { self.new ≡ released self.old offset }
        ensures gone { self.new.blocks ≡ [] }
    {
        self.block = None;
    }

    pub fn number(&self) -> u32
        ensures { result ≡ self.now.number }
    {
        self.number
    }

    pub fn owner(&self) -> u32
        ensures { result ≡ self.now.owner }
    {
        self.owner
    }

    /// The first page.
    pub fn base(&self) -> u32
        ensures { result ≡ self.now.base }
    {
        self.base
    }

    /// The units of the whole carrier.
    pub fn units(&self) -> u32
        ensures units { result ≡ self.now.units }
        ensures header { HEADER_UNITS ≤ result }
        ensures small { result ≤ MAX_UNITS }
        ensures kind { self.now.kind ≡ Single }
    {
        self.pages * PAGE_UNITS
    }

    /// Its block, if it wasn't released.
    pub fn block(&self) -> Option<Block>
        ensures { self.now.blocks ≡ blocks_of result }
    {
        self.block
    }

    /// The block that begins at `offset`, if one does.
    pub fn block_at(&self, offset: u32) -> Option<Block>
        ensures { result ≡ option_map named (block_at self.now.blocks offset) }
    {
        if offset == HEADER_UNITS {
            self.block
        } else {
            None
        }
    }

    /// The units of its block, or 0.
    pub fn allocated(&self) -> u32
        ensures { result ≡ allocated self.now.blocks }
    {
        match self.block {
            Some(block) => block.size,
            None => 0,
        }
    }

    /// The units that its block leaves.
    pub fn tail(&self) -> u32
        ensures units { result ≡ self.now.units - HEADER_UNITS - allocated self.now.blocks }
        ensures gap { result ≡ largest (gaps_of self.now) }
        ensures free { result ≡ free_units (gaps_of self.now) }
    {
        self.pages * PAGE_UNITS - HEADER_UNITS - self.allocated()
    }
}
