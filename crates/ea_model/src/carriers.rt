//! Carriers, blocks and gaps.
ghost use Rattle.std.specs.Prelude.{◌≡◌, ◌+◌, ◌^◌, ◌<◌, ◌≤◌};
ghost use Rattle.ea_model.specs.declared.units.TheConstants.{MAX_SCHEDULERS, NUMBERS};
ghost use Rattle.ea_model.specs.Instance as instances;

use crate::keyed::Keyed;
use crate::units::NUMBERS;

/// How a gap is chosen inside a carrier.
///
/// The orders are those of Erlang/OTP's 'erts_alloc', section 'The alloc_util Framework'.
#[derive(Debug, Clone, Copy, PartialEq, Eq)]
pub enum Inner {
    /// Best fit: the least size, among equals the highest offset.
    Bf,
    /// Address order best fit: the least size, among equals the lowest offset.
    Aobf,
    /// Address order first fit: the lowest offset.
    Aoff,
}

/// A maximal run of free units of a carrier.
#[derive(Debug, Clone, Copy, PartialEq, Eq)]
pub struct Gap {
    /// Its first unit.
    pub offset: u32,
    /// Its units.
    pub size: u32,
}

/// An allocated block of a carrier.
#[derive(Debug, Clone, Copy, PartialEq, Eq)]
pub struct BlockAt {
    /// Its name in the trace.
    pub name: u32,
    /// Its first unit, which is its header.
    pub offset: u32,
    /// Its units, the header included.
    pub size: u32,
}

impl Keyed for BlockAt {
    ghost key_of = { λ b. b.offset };

    fn key(&self) -> u32 {
        self.offset
    }
}

/// What is known of a block at a given offset.
#[derive(Debug, Clone, Copy, PartialEq, Eq)]
pub struct Block {
    /// Its name in the trace.
    pub name: u32,
    /// Its units, the header included.
    pub size: u32,
}

/// Where a block begins.
#[derive(Debug, Clone, Copy, PartialEq, Eq)]
pub struct Spot {
    /// The carrier's number.
    pub carrier: u32,
    /// The block's first unit in it.
    pub offset: u32,
}

/// Where a block lies.
#[derive(Debug, Clone, Copy, PartialEq, Eq)]
pub struct Place {
    /// The carrier's number.
    pub carrier: u32,
    /// The block's first unit in it.
    pub offset: u32,
    /// The block's units.
    pub size: u32,
}

/// Pages that lie one after another: a carrier's segment, or a run of free pages.
///
/// The word is that of Erlang/OTP's 'erts_alloc', section 'Allocators', mseg_alloc.
#[derive(Debug, Clone, Copy, PartialEq, Eq)]
pub struct Segment {
    /// Its first page.
    pub base: u32,
    pub pages: u32,
}

impl Keyed for Segment {
    ghost key_of = { λ s. s.base };

    fn key(&self) -> u32 {
        self.base
    }
}

/// The units of the super carrier that a block has: the first of them, counted from the first unit
/// of the super carrier, and how many.
#[derive(Debug, Clone, Copy, PartialEq, Eq)]
pub struct Extent {
    pub first: u32,
    pub units: u32,
}

/// The kinds of carriers.
///
/// They are those of Erlang/OTP's 'erts_alloc', section 'The alloc_util Framework'.
#[derive(Debug, Clone, Copy, PartialEq, Eq)]
pub enum Kind {
    /// An instance's first multiblock carrier, made before the run and never deallocated.
    Main,
    /// A multiblock carrier.
    Multi,
    /// A singleblock carrier.
    Single,
}

/// What a carrier's owner word says of a carrier that is there.
///
/// Employed, pooled and busy carriers are those of Erlang/OTP's 'Carrier Migration', section
/// 'Migration'; returning is this simulator's.
#[derive(Debug, Clone, Copy, PartialEq, Eq)]
pub enum Standing {
    /// An instance allocates in it.
    Employed,
    /// It is in the pool.
    Pooled,
    /// It is in the pool, and its employer is releasing a block of it.
    Busy,
    /// It is empty and on its way to its owner.
    Returning,
}

/// A carrier at the end of a run.
///
/// Its owner and its employer are those of Erlang/OTP's 'Carrier Migration', section 'Migration'.
#[derive(Debug, Clone, Copy, PartialEq, Eq)]
pub struct CarrierLine {
    pub number: u32,
    pub kind: Kind,
    /// The instance that created it.
    pub owner: u32,
    pub word: Standing,
    /// The instance that uses it; for a returning carrier the owner.
    pub employer: u32,
    /// Its first page.
    pub base: u32,
    pub pages: u32,
    /// The units of its blocks.
    pub allocated: u32,
    /// The units of its largest gap, or 0.
    pub largest: u32,
}

/// The sums over all carriers at the end of a run, in units but for `carriers`.
#[derive(Debug, Clone, Copy, PartialEq, Eq)]
pub struct Totals {
    /// How many carriers there are.
    pub carriers: u32,
    pub units: u64,
    /// The units of blocks that a scheduler holds, or that are given.
    pub live: u64,
    /// The units of blocks on their way to be released.
    pub queued: u64,
    /// The units of gaps.
    pub free: u64,
    /// The units of the carriers' headers.
    pub header: u64,
}

/// A gap of a carrier, as strategies compare it with gaps of other carriers.
#[derive(Debug, Clone, Copy, PartialEq, Eq)]
pub struct Candidate {
    /// The carrier's number.
    pub number: u32,
    /// The carrier's first page.
    pub base: u32,
    /// The carrier's number in the order of creation.
    pub birth: u32,
    /// The gap's first unit in the carrier.
    pub offset: u32,
    /// The gap's first unit in the super carrier.
    pub address: u32,
    /// The gap's units.
    pub size: u32,
}

/// A carrier that is to be created.
#[derive(Debug, Clone, Copy, PartialEq, Eq)]
pub struct CarrierPlan {
    pub number: u32,
    /// Its first page.
    pub base: u32,
    pub pages: u32,
    /// Its number in the order of creation.
    pub birth: u32,
    /// Whether it is a singleblock carrier.
    pub single: bool,
}

/// What an instance knows of a carrier that it created, wherever its content is.
#[derive(Debug, Clone, Copy, PartialEq, Eq)]
pub struct OwnCarrier {
    pub number: u32,
    /// Its first page.
    pub base: u32,
    pub pages: u32,
}

impl Keyed for OwnCarrier {
    ghost key_of = { λ o. o.number };

    fn key(&self) -> u32 {
        self.number
    }
}

/// How many blocks and carriers an instance has, and their units.
#[derive(Debug, Clone, Copy, PartialEq, Eq)]
pub struct Figures {
    pub blocks: u64,
    pub blocks_size: u64,
    pub carriers: u64,
    pub carriers_size: u64,
}

/// The first carrier number of an instance, which is 1 at least.
pub fn first_number(instance: u32) -> u32
    requires { (1 ≤ instance) × (instance ≤ MAX_SCHEDULERS) }
    ensures first { result ≡ instances.first_number instance }
    ensures fits { result + NUMBERS < 2 ^ 32 }
{
    (instance - 1) * NUMBERS + 1
}

/// The instance that owns the carrier with that number, which is 1 at least.
pub fn owner_of(carrier: u32) -> u32
    ensures { result ≡ instances.owner_of carrier }
{
    carrier.saturating_sub(1) / NUMBERS + 1
}

/// A value that stands for the content of a multiblock carrier.
pub trait Carried {
    ghost use Rattle.ea_model.specs.Content.{Content};

    // the content that the value stands for
    ghost content: { Self → Content };
}
