//! A carrier in a scheduler's hand.
ghost use Rattle.std.specs.Prelude.{◌≡◌, ◌↔◌, ◌≤◌, ◌*◌, true, [], ◌∷◌, Some, IfOk, IfSome, IsTrue};
ghost use Rattle.std.specs.Prelude.{length};
ghost use Rattle.std.specs.Prelude.{List as Items, option_map};
ghost use Rattle.ea_model.specs.declared.carriers.Kind.TheVariants as kind;
ghost use Rattle.ea_model.specs.declared.units.TheConstants.{MAX_SCHEDULERS, MAX_UNITS, NUMBERS};
ghost use Rattle.ea_model.specs.Content.{Content, allocated, block_at, can_go, named};
ghost use Rattle.ea_model.specs.Employment.{dismissing};
ghost use Rattle.ea_model.specs.Instance.{carrier_line, content_of, employed, figures};
ghost use Rattle.ea_model.specs.Instance.{has_content};
ghost use Rattle.ea_instance.specs.Layouts.{layout_of, plain_layout};

use crate::instance::Instance;
use crate::layouts::{Layout, multi_layout, single_layout};
use crate::lines::{multi_line, single_line};
use ea_mbc::Mbc;
use ea_model::{Block, CarrierLine, Figures, OutOfMemory};
use ea_sbc::Sbc;
use std::alloc::Global;
use std::marker::Model;

/// A carrier by its kind.
#[derive(Drop)]
enum Part {
    /// One that may have many blocks.
    Multi { carrier: Mbc },
    /// One that has one block at most.
    Single { carrier: Sbc },
}

/// A multiblock or singleblock carrier that a scheduler has in its hand. Contracts see it as its
/// content.
pub struct Held {
    part: Part,
}

// Written out, so that a drop of one is a call and not its cases: proofs of what has one are shorter.
impl Drop for Held {
    fn drop(self) {
        let Held { part } = self;
        drop(part);
    }
}

impl Model for Held {
    ghost use Rattle.ea_model.specs.Content.{Content};
    ghost use Rattle.ea_instance.specs.Hands.{IsOfKind, content_in};

    ghost Value = { Content };

    ghost view = { λ h. content_in h.part };

    ghost invariant = { λ h. IsOfKind h.part };
}

impl Held {
    /// A multiblock carrier.
    pub fn multi(carrier: Mbc) -> Held
        ensures { result ≡ carrier }
    {
        carrier.laid_out();
        Held {
            part: Part::Multi { carrier },
        }
    }

    /// A singleblock carrier.
    pub fn single(carrier: Sbc) -> Held
        ensures { result ≡ carrier }
    {
        carrier.units();
        Held {
            part: Part::Single { carrier },
        }
    }

    /// Its number.
    pub fn number(&self) -> u32
        ensures { result ≡ self.now.number }
    {
        match &self.part {
            Part::Multi { carrier } => carrier.number(),
            Part::Single { carrier } => carrier.number(),
        }
    }

    /// Whether it has no block.
    pub fn is_empty(&self) -> bool
        ensures { IsTrue result ↔ (self.now.blocks ≡ []) }
    {
        match &self.part {
            Part::Multi { carrier } => carrier.is_empty(),
            Part::Single { carrier } => carrier.block().is_none(),
        }
    }

    /// Whether it is a singleblock carrier.
    pub fn is_single(&self) -> bool
        ensures { IsTrue result ↔ (self.now.kind ≡ kind.Single) }
    {
        match &self.part {
            Part::Multi { .. } => false,
            Part::Single { carrier } => {
                carrier.units();
                true
            }
        }
    }

    /// How many blocks it has.
    fn len(&self) -> u32
        ensures { result ≡ length self.now.blocks }
    {
        match &self.part {
            Part::Multi { carrier } => carrier.len(),
            Part::Single { carrier } => match carrier.block() {
                Some(_) => 1,
                None => 0,
            },
        }
    }

    /// The units of its blocks.
    fn allocated(&self) -> u32
        ensures { result ≡ allocated self.now.blocks }
    {
        match &self.part {
            Part::Multi { carrier } => carrier.allocated(),
            Part::Single { carrier } => carrier.allocated(),
        }
    }

    /// Its units.
    fn units(&self) -> u32
        ensures { result ≡ self.now.units }
    {
        match &self.part {
            Part::Multi { carrier } => carrier.units(),
            Part::Single { carrier } => carrier.units(),
        }
    }

    /// The figures of those carriers and of this one.
    pub fn counted_with(&self, others: Figures) -> Figures
        requires blocks { others.blocks ≤ MAX_UNITS * (NUMBERS * MAX_SCHEDULERS) }
        requires few { others.carriers ≤ NUMBERS * MAX_SCHEDULERS }
        requires small { (others.blocks_size ≤ MAX_UNITS * (NUMBERS * MAX_SCHEDULERS))
            × (others.carriers_size ≤ MAX_UNITS * (NUMBERS * MAX_SCHEDULERS)) }
        ensures { (cs : Items Content) → others ≡ figures cs → result ≡ figures (self.now ∷ cs) }
    {
        let blocks = u64::from(self.len());
        let size = u64::from(self.allocated());
        let units = u64::from(self.units());
        Figures {
            blocks: others.blocks + blocks,
            blocks_size: others.blocks_size + size,
            carriers: others.carriers + 1,
            carriers_size: others.carriers_size + units,
        }
    }

    /// The block that begins at `offset`, if one does.
    pub fn block_at(&self, offset: u32) -> Option<Block>
        ensures { result ≡ option_map named (block_at self.now.blocks offset) }
    {
        match &self.part {
            Part::Multi { carrier } => carrier.block_at(offset),
            Part::Single { carrier } => carrier.block_at(offset),
        }
    }

    /// Its line among the carriers of the output, with that employer.
    pub fn line(&self, employer: u32) -> CarrierLine
        ensures { result ≡ carrier_line employer self.now }
    {
        match &self.part {
            Part::Multi { carrier } => multi_line(employer, carrier),
            Part::Single { carrier } => single_line(employer, carrier),
        }
    }

    /// Its layout. It fails only where there is no memory.
    pub fn layout(&self, alloc: Global) -> Result<Layout, OutOfMemory>
        ensures { IfOk result (λ layout. plain_layout layout ≡ layout_of self.now) }
    {
        match &self.part {
            Part::Multi { carrier } => multi_layout(alloc, carrier),
            Part::Single { carrier } => single_layout(alloc, carrier),
        }
    }

    /// The carrier itself, where it is a multiblock carrier.
    pub fn into_multi(self) -> Mbc
        requires { self.kind ≡ kind.Multi }
        ensures { result ≡ self }
    {
        let Held { part } = self;
        match part {
            Part::Multi { carrier } => carrier,
            Part::Single { .. } => unreachable!(),
        }
    }
}

impl Instance {
    /// Takes a carrier that is deallocated. The next one can be made of it if it is a multiblock
    /// carrier without blocks, and else it is dropped.
    pub fn discard(&mut self, content: Held)
        ensures { self.new ≡ self.old }
    {
        if !content.is_single() {
            self.spare.keep(content.into_multi());
        }
    }

    /// Gives up a carrier that it employs and that isn't the main one, into the hand: answers it.
    /// If it owns it, it still does. It takes no memory.
    pub fn hand_out(&mut self, number: u32) -> Held
        requires there { has_content number (employed self.old) ≡ true }
        requires goes { IfSome (content_of (employed self.old) number)
            (λ c. can_go c.kind ≡ true) }
        requires gone { IfSome (content_of (employed self.old) number)
            (λ c. c.kind ≡ kind.Single → c.blocks ≡ []) }
        requires empty { self.old.settings.acul ≡ 0
            → IfSome (content_of (employed self.old) number) (λ c. c.blocks ≡ []) }
        ensures content { content_of (employed self.old) number ≡ Some result }
        ensures rest { self.new ≡ dismissing self.old number }
    {
        self.stands();
        if let Some(found) = self.find_multi(number) {
            return Held::multi(self.give_up_multi(found));
        }
        Held::single(self.give_up_single(number))
    }
}
