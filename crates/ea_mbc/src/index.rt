//! The gaps of a carrier, kept by the order in which they are chosen.
ghost use Rattle.std.specs.Prelude.{◌≡◌, ℕ, ◌<◌, ◌≤◌, List, All, IfSome, IfOk, Contains, replicate};
ghost use Rattle.std.specs.Prelude.{is_some, length};
ghost use Rattle.ea_model.specs.declared.carriers.Gap as carriers;
ghost use Rattle.ea_model.specs.declared.carriers.Inner.TheVariants.{Bf, Aobf, Aoff};
ghost use Rattle.ea_model.specs.declared.units.TheConstants.{HEADER_UNITS};
ghost use Rattle.ea_model.specs.Choice.{choice};
ghost use Rattle.ea_mbc.specs.Index.{serves};
ghost use Rattle.ea_mbc.specs.Indexed.{AreApart, HasSlot, Indexed, IsHeld, Slots, no_gaps, put_in};
ghost use Rattle.ea_mbc.specs.Indexed.{taken_out};

use ea_model::{Gap, HEADER_UNITS, Inner, MIN_BLOCK, OutOfMemory};
use ea_postree::PosTree;
use ea_sizemap::SizeMap;
use ea_tags::PagedArray;
use std::alloc::Global;
use std::marker::Model;

// How far apart gaps begin at least: one of them and the block behind it have so many units.
const APART: u32 = 2 * MIN_BLOCK;

/// The lowest gap of at least `need` units.
fn lowest(offsets: &PagedArray, tree: &PosTree, need: u32) -> Option<Gap>
    requires { length tree.now ≤ length offsets.now }
    ensures { (s : Slots) (end : ℕ) (gs : List carriers.Gap) → s.offsets ≡ offsets.now
        → s.sizes ≡ tree.now → Indexed end s gs → AreApart HEADER_UNITS end gs
        → result ≡ choice Aoff need gs }
{
    let slot = tree.first_at_least(need.max(1))?;
    Some(Gap {
        offset: offsets.get(slot),
        size: tree.value(slot),
    })
}

/// The lowest of the smallest gaps of at least `need` units.
fn smallest_lowest(offsets: &PagedArray, map: &SizeMap, need: u32) -> Option<Gap>
    requires { length map.now.held ≤ length offsets.now }
    ensures { (s : Slots) (end : ℕ) (gs : List carriers.Gap) → s.offsets ≡ offsets.now
        → s.sizes ≡ map.now.held → Indexed end s gs → AreApart HEADER_UNITS end gs
        → result ≡ choice Aobf need gs }
{
    let smallest = map.lowest_at_least(need.max(1))?;
    Some(Gap {
        offset: offsets.get(smallest.position),
        size: smallest.size,
    })
}

/// The highest of the smallest gaps of at least `need` units.
fn smallest_highest(offsets: &PagedArray, map: &SizeMap, need: u32) -> Option<Gap>
    requires { length map.now.held ≤ length offsets.now }
    ensures { (s : Slots) (end : ℕ) (gs : List carriers.Gap) → s.offsets ≡ offsets.now
        → s.sizes ≡ map.now.held → Indexed end s gs → AreApart HEADER_UNITS end gs
        → result ≡ choice Bf need gs }
{
    let smallest = map.highest_at_least(need.max(1))?;
    Some(Gap {
        offset: offsets.get(smallest.position),
        size: smallest.size,
    })
}

/// The gaps of a carrier by slots of 12 units, in each of which one gap begins at most. Contracts
/// see the order that they are kept by, where the gap of each slot begins, and its units. The sizes
/// are in the tree where the lowest gap is chosen, and else in the map; the other one has no
/// positions.
#[derive(Drop)]
pub struct GapIndex {
    inner: Inner,
    offsets: PagedArray,
    tree: PosTree,
    map: SizeMap,
}

impl Model for GapIndex {
    ghost use Rattle.ea_mbc.specs.Index.{sizes_by, IsKept};
    ghost use Rattle.ea_mbc.specs.Indexed.{Slots};

    ghost Value = { Slots };

    ghost view = { λ i. record {
      inner = i.inner;
      offsets = i.offsets;
      sizes = sizes_by i.inner i.tree i.map;
    } };

    ghost invariant = { λ i. IsKept i.inner i.offsets i.tree i.map };
}

impl GapIndex {
    /// No gaps of a carrier of `end` units, which are going to be chosen in this order.
    pub fn new(alloc: Global, inner: Inner, end: u32) -> Result<GapIndex, OutOfMemory>
        ensures { IfOk result (λ i. i ≡ no_gaps inner end) }
    {
        let slots = end / APART + 1;
        let (positions, held) = match inner {
            Inner::Aoff => (slots, 0),
            Inner::Bf | Inner::Aobf => (0, slots),
        };
        Ok(GapIndex {
            inner,
            offsets: PagedArray::new(alloc, slots)?,
            tree: PosTree::new(alloc, positions)?,
            map: SizeMap::new(alloc, slots.saturating_mul(APART), held)?,
        })
    }

    /// The gap that is chosen for `need` units in the order, or None where the order that the gaps
    /// are kept by does not tell which one that is.
    pub fn first(&self, inner: Inner, need: u32) -> Option<Option<Gap>>
        ensures served { is_some result ≡ serves self.now.inner inner }
        ensures chosen { (end : ℕ) (gs : List carriers.Gap) → Indexed end self.now gs
            → AreApart HEADER_UNITS end gs → IfSome result (λ found. found ≡ choice inner need gs) }
    {
        match (self.inner, inner) {
            (Inner::Aoff, Inner::Aoff) => Some(lowest(&self.offsets, &self.tree, need)),
            (Inner::Bf | Inner::Aobf, Inner::Aobf) => {
                Some(smallest_lowest(&self.offsets, &self.map, need))
            }
            (Inner::Bf | Inner::Aobf, Inner::Bf) => {
                Some(smallest_highest(&self.offsets, &self.map, need))
            }
            _ => None,
        }
    }

    /// The units of the largest gap, or 0.
    pub fn largest(&self) -> u32
        ensures bound { All (λ n. n ≤ result) self.now.sizes }
        ensures met { 0 < result → Contains self.now.sizes result }
    {
        match self.inner {
            Inner::Aoff => self.tree.largest(),
            Inner::Bf | Inner::Aobf => self.map.greatest(),
        }
    }

    /// Takes out the gap of `size` units at the offset. A gap of no units is none.
    pub fn take(&mut self, offset: u32, size: u32)
        requires { IsHeld offset size self.old }
        ensures { self.new ≡ taken_out offset size self.old }
    {
        if size != 0 {
            let slot = offset / APART;
            match self.inner {
                Inner::Aoff => self.tree.set(slot, 0),
                Inner::Bf | Inner::Aobf => self.map.remove(size, slot),
            }
        }
    }

    /// Puts in a gap of `size` units at the offset. A gap of no units is none.
    pub fn put(&mut self, offset: u32, size: u32)
        requires { HasSlot offset size self.old }
        ensures { self.new ≡ put_in offset size self.old }
    {
        if size != 0 {
            let slot = offset / APART;
            self.offsets.set(slot, offset);
            match self.inner {
                Inner::Aoff => self.tree.set(slot, size),
                Inner::Bf | Inner::Aobf => self.map.insert(size, slot),
            }
        }
    }
}
