//! A carrier as the plain list of its blocks. Each contract is the definition itself.
ghost use Rattle.std.specs.Prelude.{◌≡◌, ◌*◌, ◌^◌, ◌<◌, ◌==◌, not};
ghost use Rattle.std.specs.Prelude.{◌++◌, [], ◌∷◌, IfOk, OnOk, OnErr, filter};
ghost use Rattle.ea_model.specs.declared.units.TheConstants.{PAGE_UNITS};
ghost use Rattle.ea_model.specs.Content.{gap, gap_at, gaps_of, inserted, is_empty_multi, placed};
ghost use Rattle.ea_model.specs.Content.{released, taken_of};
ghost use Rattle.ea_model.specs.Instance.{created_content};

use ea_model::{
    BlockAt, CarrierPlan, Gap, HEADER_UNITS, Kind, List, MIN_BLOCK, OutOfMemory, PAGE_UNITS,
};
use std::alloc::Global;
use std::marker::Model;

/// A carrier as the list of its blocks. Contracts see it as its content.
#[derive(Drop)]
pub struct PlainCarrier {
    number: u32,
    owner: u32,
    base: u32,
    birth: u32,
    units: u32,
    kind: Kind,
    blocks: List<BlockAt>,
}

impl Model for PlainCarrier {
    ghost use Rattle.ea_model.specs.Content.{Content};

    ghost Value = { Content };

    ghost view = { λ c. record {
      number = c.number;
      owner = c.owner;
      base = c.base;
      birth = c.birth;
      units = c.units;
      kind = c.kind;
      blocks = c.blocks.items;
    } };
}

/// Adds the free units from `from` up to `to`, where there are some.
fn put_gap(gaps: &mut List<Gap>, from: u64, to: u32) -> Result<(), OutOfMemory>
    ensures { OnOk result (gaps.new.items ≡ gaps.old.items ++ gap from to) }
{
    if from >= u64::from(to) {
        return Ok(());
    }
    let offset = from as u32;
    gaps.push(Gap {
        offset,
        size: to - offset,
    })
}

/// The units of the gap that begins at the offset, or 0.
fn gap_at(gaps: &[Gap], offset: u32) -> u32
    ensures { result ≡ gap_at gaps.now offset }
{
    for gap in gaps {
        if gap.offset == offset {
            return gap.size;
        }
    }
    0
}

/// The units that a block takes of a gap.
fn taken(gap: u32, need: u32) -> u32
    ensures { result ≡ taken_of gap need }
{
    if gap.saturating_sub(need) >= MIN_BLOCK {
        need
    } else {
        gap
    }
}

/// The blocks with one more, before the first that begins after it.
fn inserted(alloc: Global, block: BlockAt, blocks: &[BlockAt]) -> Result<List<BlockAt>, OutOfMemory>
    ensures { IfOk result (λ list. list.items ≡ inserted block blocks.now) }
{
    let mut list = List::new(alloc);
    for (place, next) in blocks.iter().enumerate() {
        if block.offset < next.offset {
            list.push(block)?;
            list.extend_from_slice(&blocks[place..])?;
            return Ok(list);
        }
        list.push(*next)?;
    }
    list.push(block)?;
    Ok(list)
}

/// Adds the block, unless it begins at the offset.
fn put_unless_at(list: &mut List<BlockAt>, offset: u32, block: BlockAt) -> Result<(), OutOfMemory>
    ensures { OnOk result (list.new.items
        ≡ list.old.items ++ filter (λ b. not (b.offset == offset)) (block ∷ [])) }
{
    if block.offset == offset {
        return Ok(());
    }
    list.push(block)
}

/// The blocks without the one that begins at the offset.
fn without(alloc: Global, offset: u32, blocks: &[BlockAt]) -> Result<List<BlockAt>, OutOfMemory>
    ensures { IfOk result (λ list. list.items ≡ filter (λ b. not (b.offset == offset)) blocks.now) }
{
    let mut list = List::new(alloc);
    for block in blocks {
        put_unless_at(&mut list, offset, *block)?;
    }
    Ok(list)
}

impl PlainCarrier {
    /// The carrier of a plan, without blocks.
    pub fn new(alloc: Global, owner: u32, kind: Kind, plan: CarrierPlan) -> PlainCarrier
        requires { PAGE_UNITS * plan.pages < 2 ^ 32 }
        ensures { result ≡ created_content owner kind plan }
    {
        PlainCarrier {
            number: plan.number,
            owner,
            base: plan.base,
            birth: plan.birth,
            units: PAGE_UNITS * plan.pages,
            kind,
            blocks: List::new(alloc),
        }
    }

    /// Its own number.
    pub fn number(&self) -> u32
        ensures { result ≡ self.now.number }
    {
        self.number
    }

    /// Its first page.
    pub fn base(&self) -> u32
        ensures { result ≡ self.now.base }
    {
        self.base
    }

    /// Its number in the order of creation.
    pub fn birth(&self) -> u32
        ensures { result ≡ self.now.birth }
    {
        self.birth
    }

    /// Its kind.
    pub fn kind(&self) -> Kind
        ensures { result ≡ self.now.kind }
    {
        self.kind
    }

    /// Its blocks, by rising offset.
    pub fn blocks(&self) -> &[BlockAt]
        ensures { result.now ≡ self.now.blocks }
    {
        self.blocks.as_slice()
    }

    /// Puts a block of `need` units at the front of the gap at the offset. A rest of fewer than 6
    /// units stays in the block.
    pub fn place(
        &mut self,
        alloc: Global,
        offset: u32,
        need: u32,
        name: u32,
    ) -> Result<(), OutOfMemory>
        ensures ok { OnOk result (self.new ≡ placed self.old offset need name) }
        ensures err { OnErr result (self.new ≡ self.old) }
    {
        let size = taken(gap_at(self.gaps(alloc)?.as_slice(), offset), need);
        let block = BlockAt { name, offset, size };
        self.blocks = inserted(alloc, block, self.blocks.as_slice())?;
        Ok(())
    }

    /// Takes out the block at the offset.
    pub fn release(&mut self, alloc: Global, offset: u32) -> Result<(), OutOfMemory>
        ensures ok { OnOk result (self.new ≡ released self.old offset) }
        ensures err { OnErr result (self.new ≡ self.old) }
    {
        self.blocks = without(alloc, offset, self.blocks.as_slice())?;
        Ok(())
    }

    /// Puts a block of that name and size in the place of the one at its offset.
    pub fn refit(&mut self, alloc: Global, block: BlockAt) -> Result<(), OutOfMemory>
        ensures ok { OnOk result (self.new ≡ record self.old {
          blocks = inserted block (released self.old block.offset).blocks;
        }) }
        ensures err { OnErr result (self.new ≡ self.old) }
    {
        let others = without(alloc, block.offset, self.blocks.as_slice())?;
        self.blocks = inserted(alloc, block, others.as_slice())?;
        Ok(())
    }

    /// Its gaps, by rising offset.
    pub fn gaps(&self, alloc: Global) -> Result<List<Gap>, OutOfMemory>
        ensures { IfOk result (λ gaps. gaps.items ≡ gaps_of self.now) }
    {
        let mut gaps = List::new(alloc);
        let mut at = u64::from(HEADER_UNITS);
        for block in self.blocks.as_slice() {
            put_gap(&mut gaps, at, block.offset)?;
            at = u64::from(block.offset) + u64::from(block.size);
        }
        put_gap(&mut gaps, at, self.units)?;
        Ok(gaps)
    }

    /// Whether it is a multiblock carrier without blocks.
    pub fn is_empty_multi(&self) -> bool
        ensures { result ≡ is_empty_multi self.now }
    {
        self.kind == Kind::Multi && self.blocks.len() == 0
    }
}
