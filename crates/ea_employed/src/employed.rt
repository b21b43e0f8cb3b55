//! A carrier that an instance employs.
ghost use Rattle.std.specs.Prelude.{not, ◌&&◌, ◌≡◌, ◌+◌, ◌*◌, ◌%◌, ◌<◌, ◌≤◌};
ghost use Rattle.std.specs.Prelude.{IfSome, IsSome, Some, true, map, option_map};
ghost use Rattle.ea_model.specs.declared.carriers.Kind.TheVariants.{Multi};
ghost use Rattle.ea_model.specs.declared.units.TheConstants.{MAX_UNITS, MIN_BLOCK};
ghost use Rattle.ea_model.specs.Content.{allocated, block_at, gap_behind, gaps_of};
ghost use Rattle.ea_model.specs.Content.{is_empty_multi, is_multi, is_nil, is_vacant};
ghost use Rattle.ea_model.specs.Content.{largest, named, resized, size_of, taken_of};
ghost use Rattle.ea_model.specs.Strategies.{candidate, candidates_in};
ghost use Rattle.ea_model.specs.Instance.{carrier_line};
ghost use Rattle.ea_mbc.specs.Gaps.{room_at};
ghost use Rattle.ea_laws.specs.Kept.{IsLaidOut};
ghost use Rattle.ea_laws.specs.Kinds.{is_shared};
ghost use Rattle.ea_employed.specs.Choices.{candidate_of, IsChosenIn};
ghost use Rattle.ea_employed.specs.Listed.{chosen_in, held_of, located, spans};

use crate::choice::Choice;
use ea_cset::CarrierKey;
use ea_goodfit::BinnedGap;
use ea_mbc::Mbc;
use ea_model::keyed::Keyed;
use ea_model::{Block, Candidate, CarrierLine, Inner, Kind, PAGE_UNITS, Standing};
use std::marker::Model;

/// A block, and the gap directly after it.
#[derive(Clone, Copy)]
pub struct BlockAndGap {
    /// The units of the block.
    pub size: u32,
    /// The units of the gap, or 0.
    pub after: u32,
}

/// A main or multiblock carrier of an instance. Contracts see it as its content.
#[derive(Drop)]
pub struct Employed {
    /// Its kind, which isn't that of a singleblock carrier.
    pub kind: Kind,
    pub carrier: Mbc,
}

impl Model for Employed {
    ghost use Rattle.std.specs.Prelude.{◌≡◌, true};
    ghost use Rattle.ea_model.specs.Content.{Content};
    ghost use Rattle.ea_laws.specs.Kinds.{is_shared};

    ghost Value = { Content };

    ghost view = { λ e. record e.carrier { kind = e.kind } };

    ghost invariant = { λ e. is_shared e.kind ≡ true };
}

impl Keyed for Employed {
    ghost key_of = { λ c. c.number };

    fn key(&self) -> u32 {
        self.carrier.number()
    }
}

impl Employed {
    /// What tells it from the others of its instance.
    pub fn carrier_key(&self) -> CarrierKey
        ensures { result ≡ (held_of self.now).key }
    {
        CarrierKey {
            number: self.carrier.number(),
            base: self.carrier.base(),
            birth: self.carrier.birth(),
        }
    }

    /// The gap that is chosen in it. It stands at the index among the carriers, and lies in the
    /// super carrier.
    pub fn choose(&self, index: usize, inner: Inner, need: u32) -> Option<Choice>
        requires some { 1 ≤ need }
        requires low { PAGE_UNITS * self.now.base + self.now.units ≤ MAX_UNITS }
        ensures found { candidate_of result ≡ chosen_in inner need self.now }
        ensures index { IfSome result (λ x. x.index ≡ index) }
        ensures chosen { IfSome result (λ x. IsChosenIn need self.now x.candidate) }
        ensures shared { candidates_in self.now.kind self.now
            ≡ map (candidate self.now) (gaps_of self.now) }
    {
        let gap = self.carrier.choose(inner, need)?;
        let candidate = Candidate {
            number: self.carrier.number(),
            base: self.carrier.base(),
            birth: self.carrier.birth(),
            offset: gap.offset,
            address: self.address(gap.offset),
            size: gap.size,
        };
        Some(Choice { index, candidate })
    }

    /// The address of its unit at `offset`.
    pub fn address(&self, offset: u32) -> u32
        requires low { PAGE_UNITS * self.now.base + self.now.units ≤ MAX_UNITS }
        requires within { offset ≤ self.now.units }
        ensures { result ≡ PAGE_UNITS * self.now.base + offset }
    {
        self.carrier.base() * PAGE_UNITS + offset
    }

    /// A gap of its own, as the bins hold it.
    pub fn located(&self, gap: BinnedGap) -> Candidate
        requires low { PAGE_UNITS * self.now.base + self.now.units ≤ MAX_UNITS }
        requires spans { spans gap.address self.now ≡ true }
        ensures { result ≡ located gap self.now }
    {
        Candidate {
            number: self.carrier.number(),
            base: self.carrier.base(),
            birth: self.carrier.birth(),
            offset: gap.address - self.address(0),
            address: gap.address,
            size: gap.size,
        }
    }

    /// The block that begins at `offset`, if one does.
    pub fn block_at(&self, offset: u32) -> Option<Block>
        ensures { result ≡ option_map named (block_at self.now.blocks offset) }
    {
        self.carrier.block_at(offset)
    }

    /// The block at `offset`, and the gap directly after it.
    pub fn block_and_gap(&self, offset: u32) -> BlockAndGap
        requires { IsSome (block_at self.now.blocks offset) }
        ensures size { result.size ≡ size_of (block_at self.now.blocks offset) }
        ensures after { result.after ≡ gap_behind self.now offset }
    {
        match self.carrier.block_at(offset) {
            Some(block) => BlockAndGap {
                size: block.size,
                after: self.carrier.gap_behind(offset),
            },
            None => unreachable!(),
        }
    }

    /// Whether it is to be deallocated: it has no blocks and isn't the main carrier.
    pub fn is_vacant(&self) -> bool
        ensures vacant { result ≡ is_vacant self.now }
        ensures empty { result ≡ is_empty_multi self.now }
    {
        self.kind == Kind::Multi && self.carrier.is_empty()
    }

    /// Whether it has blocks and isn't the main carrier.
    pub fn is_full_multi(&self) -> bool
        ensures { result ≡ (is_multi self.now.kind && not (is_nil self.now.blocks)) }
    {
        self.kind == Kind::Multi && !self.carrier.is_empty()
    }

    /// The units of its blocks.
    pub fn allocated(&self) -> u32
        ensures { result ≡ allocated self.now.blocks }
    {
        self.carrier.allocated()
    }

    /// All its units.
    pub fn units(&self) -> u32
        ensures { result ≡ self.now.units }
    {
        self.carrier.units()
    }

    /// The units of its largest gap, or 0.
    pub fn largest(&self) -> u32
        ensures { result ≡ largest (gaps_of self.now) }
    {
        self.carrier.largest()
    }

    /// The carrier itself, which isn't the main one.
    pub fn into_multi(self) -> Mbc
        requires { self.kind ≡ Multi }
        ensures { result ≡ self }
    {
        let carrier = self.carrier;
        carrier.laid_out();
        carrier
    }

    /// Its line among the carriers of the output, where the instance employs it.
    pub fn line(&self, employer: u32) -> CarrierLine
        ensures { result ≡ carrier_line employer self.now }
    {
        CarrierLine {
            number: self.carrier.number(),
            kind: self.kind,
            owner: self.carrier.owner(),
            word: Standing::Employed,
            employer,
            base: self.carrier.base(),
            pages: self.carrier.units() / PAGE_UNITS,
            allocated: self.carrier.allocated(),
            largest: self.carrier.largest(),
        }
    }
}
