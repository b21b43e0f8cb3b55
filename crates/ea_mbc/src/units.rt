//! The units of a carrier, with its tags, the names of its blocks and what finds its gaps.
ghost use Rattle.std.specs.Prelude.{◌≡◌, ◌≢◌, ℕ, ◌+◌, ◌-◌, ◌%◌, ◌<◌, ◌≤◌, ◌↔◌, [], All};
ghost use Rattle.std.specs.Prelude.{Some, IsTrue, IsSome, IfOk, length, true};
ghost use Rattle.ea_model.specs.declared.units.TheConstants.{HEADER_UNITS, MAX_UNITS};
ghost use Rattle.ea_model.specs.declared.units.TheConstants.{MIN_BLOCK};
ghost use Rattle.ea_model.specs.Content.{gaps, gap_at, gap_up_to, block_at, end_of, size_of};
ghost use Rattle.ea_model.specs.Content.{inserted, largest, IsGapSize, Tiled};
ghost use Rattle.ea_model.specs.Choice.{choice};
ghost use Rattle.ea_model.specs.Keyed.{without, changed_at};
ghost use Rattle.ea_mbc.specs.Parts.{HasPart, part_in};
ghost use Rattle.ea_mbc.specs.Tagged.{BlockTagged, GapTagged};

use crate::choosing::{better_of, free_units};
use crate::coding::{clear, lay, put_gap};
use crate::index::GapIndex;
use crate::parts::Part;
use ea_model::{BlockAt, Gap, HEADER_UNITS, Inner, OutOfMemory};
use ea_tags::{PagedArray, UnitArray};
use std::alloc::Global;
use std::marker::Model;

/// The units of a carrier. Contracts see its end and its blocks by rising offset. Each block and
/// each gap has its header in its first unit, and each gap its size in its last one. The names
/// stand by half offsets, 0 where no block begins. The index has the gaps once more, by the order
/// in which they are chosen.
#[derive(Drop)]
pub struct CarrierUnits {
    tags: UnitArray,
    names: PagedArray,
    index: GapIndex,
    end: u32,
    /// That no block is called 0. Where it is false, one may be.
    all_named: bool,
}

impl Model for CarrierUnits {
    ghost use Rattle.std.specs.Prelude.{◌≤◌};
    ghost use Rattle.ea_model.specs.declared.units.TheConstants.{HEADER_UNITS, MAX_UNITS};
    ghost use Rattle.ea_model.specs.Content.{gaps};
    ghost use Rattle.ea_mbc.specs.Coding.{blocks_of, IsCoded};
    ghost use Rattle.ea_mbc.specs.Indexed.{Indexed};
    ghost use Rattle.ea_mbc.specs.Layout.{Layout};
    ghost use Rattle.ea_mbc.specs.Named.{AreNamed};

    ghost Value = { Layout };

    ghost view = { λ u. record { end = u.end; blocks = blocks_of u.tags u.names u.end } };

    ghost invariant = { λ u. record {
      coded : IsCoded u.tags u.names u.end (blocks_of u.tags u.names u.end)
          × (u.end ≤ MAX_UNITS);
      indexed : Indexed u.end u.index
          (gaps HEADER_UNITS u.end (blocks_of u.tags u.names u.end));
      named : AreNamed u.all_named (blocks_of u.tags u.names u.end);
    } };
}

/// Whether all names are other than 0, if those were and this is one more.
fn named_with(all_named: bool, name: u32) -> bool
    ensures { result ≡ true → (all_named ≡ true) × (1 ≤ name) }
{
    if name == 0 {
        return false;
    }
    all_named
}

impl CarrierUnits {
    /// A header and one gap. The gap that is first in this order is found without a walk.
    pub fn new(alloc: Global, inner: Inner, end: u32) -> Result<CarrierUnits, OutOfMemory>
        requires even { end % 2 ≡ 0 }
        requires gap { HEADER_UNITS + MIN_BLOCK ≤ end }
        requires few { end ≤ MAX_UNITS }
        ensures { IfOk result (λ u. u ≡ record { end = end; blocks = [] }) }
    {
        let mut tags = UnitArray::new(alloc, end)?;
        put_gap(&mut tags, end, HEADER_UNITS, end);
        let names = PagedArray::new(alloc, end / 2)?;
        let mut index = GapIndex::new(alloc, inner, end)?;
        index.put(HEADER_UNITS, end - HEADER_UNITS);
        Ok(CarrierUnits {
            tags,
            names,
            index,
            end,
            all_named: true,
        })
    }

    /// Its blocks lie one after another, with whole gaps between them.
    pub fn laid_out(&self)
        ensures header { HEADER_UNITS ≤ self.now.end }
        ensures tiled { Tiled HEADER_UNITS self.now.end self.now.blocks }
    {
        let _end = self.end;
    }

    /// The number of all units.
    pub fn end(&self) -> u32
        ensures { result ≡ self.now.end }
    {
        self.end
    }

    /// The words of the units.
    pub fn tags(&self) -> &UnitArray
        ensures as_many { length result.now ≡ self.now.end }
        ensures blocks { All
            (BlockTagged result.now self.now.end (gaps HEADER_UNITS self.now.end self.now.blocks))
            self.now.blocks }
        ensures gaps { All (GapTagged result.now self.now.end)
            (gaps HEADER_UNITS self.now.end self.now.blocks) }
    {
        &self.tags
    }

    /// The gap that is chosen for `need` units.
    pub fn best_gap(&self, inner: Inner, need: u32) -> Option<Gap>
        ensures { result
            ≡ choice inner need (gaps HEADER_UNITS self.now.end self.now.blocks) }
    {
        match self.index.first(inner, need) {
            Some(found) => found,
            None => self.walk(inner, need),
        }
    }

    /// The gap that is chosen for `need` units, found by a walk over the headers.
    fn walk(&self, inner: Inner, need: u32) -> Option<Gap>
        ensures { result
            ≡ choice inner need (gaps HEADER_UNITS self.now.end self.now.blocks) }
    {
        let mut at = HEADER_UNITS;
        let mut best = None;
        while at < self.end {
            let header = self.tags.header(at);
            best = better_of(inner, need, best, at, free_units(header));
            at += header.size;
        }
        best
    }

    /// The units of the largest gap, or 0.
    fn greatest(&self) -> u32
        ensures { result ≡ largest (gaps HEADER_UNITS self.now.end self.now.blocks) }
    {
        self.index.largest()
    }

    /// The units of the largest gap, or 0, where one of `gone` units has become smaller, and
    /// `before` was the largest.
    pub fn largest_after(&self, gone: u32, before: u32) -> u32
        requires { gone < before
            → before ≡ largest (gaps HEADER_UNITS self.now.end self.now.blocks) }
        ensures { result ≡ largest (gaps HEADER_UNITS self.now.end self.now.blocks) }
    {
        if gone < before {
            before
        } else {
            self.greatest()
        }
    }

    /// Whether a block begins at the offset, found by a walk over the headers.
    fn has_header(&self, offset: u32) -> bool
        ensures { IsTrue result ↔ IsSome (block_at self.now.blocks offset) }
    {
        let mut at = HEADER_UNITS;
        while at < self.end {
            let header = self.tags.header(at);
            if at == offset {
                return !header.this_free;
            }
            at += header.size;
        }
        false
    }

    /// Whether a block begins at the offset. It is looked for only where one may be called 0.
    fn begins(&self, offset: u32) -> bool
        ensures { IsTrue result ↔ IsSome (block_at self.now.blocks offset) }
    {
        if offset >= self.end {
            return false;
        }
        if offset % 2 != 0 {
            return false;
        }
        if self.names.get(offset / 2) != 0 {
            return true;
        }
        if self.all_named {
            return false;
        }
        self.has_header(offset)
    }

    /// The block that begins at the offset.
    fn block(&self, offset: u32) -> BlockAt
        requires { IsSome (block_at self.now.blocks offset) }
        ensures { block_at self.now.blocks offset ≡ Some result }
    {
        BlockAt {
            name: self.names.get(offset / 2),
            offset,
            size: self.tags.header(offset).size,
        }
    }

    /// The block that begins at the offset, if one does.
    pub fn block_at(&self, offset: u32) -> Option<BlockAt>
        ensures { result ≡ block_at self.now.blocks offset }
    {
        if self.begins(offset) {
            Some(self.block(offset))
        } else {
            None
        }
    }

    /// The units of the block that begins at the offset.
    pub fn size(&self, offset: u32) -> u32
        requires { IsSome (block_at self.now.blocks offset) }
        ensures { result ≡ size_of (block_at self.now.blocks offset) }
    {
        self.tags.header(offset).size
    }

    /// The block or the gap that begins at the offset.
    pub fn part_at(&self, offset: u32) -> Part
        requires { HasPart self.now.blocks (gaps HEADER_UNITS self.now.end self.now.blocks) offset }
        ensures { result ≡ part_in self.now.blocks
            (gaps HEADER_UNITS self.now.end self.now.blocks) offset }
    {
        let header = self.tags.header(offset);
        let size = header.size;
        if header.this_free {
            Part::Gap { size }
        } else {
            Part::Block { size }
        }
    }

    /// The units of the gap directly after the block that begins at the offset, or 0.
    pub fn gap_behind(&self, offset: u32) -> u32
        requires { IsSome (block_at self.now.blocks offset) }
        ensures { result ≡ gap_at (gaps HEADER_UNITS self.now.end self.now.blocks)
            (end_of self.now.blocks offset) }
    {
        let stop = offset + self.tags.header(offset).size;
        if stop == self.end {
            return 0;
        }
        let next = self.tags.header(stop);
        free_units(next)
    }

    /// The units of the gap directly before the block that begins at the offset, or 0.
    pub fn gap_before(&self, offset: u32) -> u32
        requires { IsSome (block_at self.now.blocks offset) }
        ensures { result
            ≡ gap_up_to (gaps HEADER_UNITS self.now.end self.now.blocks) offset }
    {
        if self.tags.header(offset).prev_free {
            self.tags.footer(offset - 1)
        } else {
            0
        }
    }

    /// Lays a block at the front of a gap of `gap` units.
    pub fn enter(&mut self, block: BlockAt, gap: u32)
        requires gap { gap
            ≡ gap_at (gaps HEADER_UNITS self.old.end self.old.blocks) block.offset }
        requires fits { block.size ≤ gap }
        requires least { MIN_BLOCK ≤ block.size }
        requires even { block.size % 2 ≡ 0 }
        requires rest { IsGapSize (gap - block.size) }
        ensures end { self.new.end ≡ self.old.end }
        ensures blocks { self.new.blocks ≡ inserted block self.old.blocks }
    {
        self.all_named = named_with(self.all_named, block.name);
        let end = self.end;
        let stop = block.offset + gap;
        lay(&mut self.tags, &mut self.names, end, block, stop, false);
        self.index.take(block.offset, gap);
        self.index.put(block.offset + block.size, gap - block.size);
    }

    /// Makes the block at the offset one gap with the gaps beside it, from `start` up to `stop`.
    pub fn leave(&mut self, offset: u32, start: u32, stop: u32)
        requires begins { IsSome (block_at self.old.blocks offset) }
        requires start { start
            + gap_up_to (gaps HEADER_UNITS self.old.end self.old.blocks) offset ≡ offset }
        requires stop { stop ≡ offset + size_of (block_at self.old.blocks offset)
            + gap_at (gaps HEADER_UNITS self.old.end self.old.blocks)
            (end_of self.old.blocks offset) }
        ensures end { self.new.end ≡ self.old.end }
        ensures blocks { self.new.blocks ≡ without (λ b. b.offset) offset self.old.blocks }
    {
        let behind = offset + self.tags.header(offset).size;
        clear(
            &mut self.tags,
            &mut self.names,
            self.end,
            start,
            offset,
            stop,
        );
        self.index.take(start, offset - start);
        self.index.take(behind, stop - behind);
        self.index.put(start, stop - start);
    }

    /// Gives the block at the offset another size and name. The units after it up to `stop`, where
    /// the next block or the end is, are a gap then, if there are any.
    pub fn refit(&mut self, block: BlockAt, stop: u32)
        requires begins { IsSome (block_at self.old.blocks block.offset) }
        requires stop { stop
            ≡ block.offset + size_of (block_at self.old.blocks block.offset)
            + gap_at (gaps HEADER_UNITS self.old.end self.old.blocks)
            (end_of self.old.blocks block.offset) }
        requires least { MIN_BLOCK ≤ block.size }
        requires even { block.size % 2 ≡ 0 }
        requires fits { block.offset + block.size ≤ stop }
        requires tiled { Tiled HEADER_UNITS self.old.end
            (changed_at (λ b. b.offset)
            (λ b. record { name = block.name; offset = b.offset; size = block.size })
            block.offset self.old.blocks) }
        ensures end { self.new.end ≡ self.old.end }
        ensures blocks { self.new.blocks ≡ changed_at (λ b. b.offset)
            (λ b. record { name = block.name; offset = b.offset; size = block.size })
            block.offset self.old.blocks }
    {
        self.all_named = named_with(self.all_named, block.name);
        let was = self.tags.header(block.offset);
        lay(
            &mut self.tags,
            &mut self.names,
            self.end,
            block,
            stop,
            was.prev_free,
        );
        let behind = block.offset + was.size;
        self.index.take(behind, stop - behind);
        let behind = block.offset + block.size;
        self.index.put(behind, stop - behind);
    }

    /// Gives the block at the offset another name.
    pub fn rename(&mut self, offset: u32, name: u32)
        requires { IsSome (block_at self.old.blocks offset) }
        ensures end { self.new.end ≡ self.old.end }
        ensures blocks { self.new.blocks ≡ changed_at (λ b. b.offset)
            (λ b. record {
              name = name;
              offset = b.offset;
              size = size_of (block_at self.old.blocks offset);
            }) offset self.old.blocks }
    {
        self.all_named = named_with(self.all_named, name);
        self.names.set(offset / 2, name);
    }
}
