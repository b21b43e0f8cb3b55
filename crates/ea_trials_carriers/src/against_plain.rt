//! A multiblock carrier beside the plain list of its blocks: both do the same generated operations,
//! and are compared after each.
ghost use Rattle.std.specs.Prelude.{◌≡◌, ◌%◌, ◌<◌, ◌≤◌};
ghost use Rattle.ea_model.specs.declared.units.TheConstants.{MIN_BLOCK};

use crate::carrier_tags::{block_tag, lowest_tags, tags_behind};
use crate::plain::PlainCarrier;
use ea_mbc::{Freed, Mbc, Placed, Resized};
use ea_model::{Block, BlockAt, CarrierPlan, Gap, Inner, Kind, OutOfMemory};
use ea_tags::Header;
use std::alloc::Global;
use std::process::Abort;
use std::test::Fail;

// One page, so that blocks and gaps come to lie side by side often.
const PLAN: CarrierPlan = CarrierPlan {
    number: 1,
    base: 0,
    pages: 1,
    birth: 1,
    single: false,
};

const UNITS: u32 = 512;

const OPERATIONS: u32 = 3000;

// Numbers that follow from a first one.
#[derive(Clone, Copy)]
struct Numbers {
    state: u64,
}

impl Numbers {
    // The next number, less than the limit.
    fn below(&mut self, limit: u32) -> u32
        requires { 0 < limit }
        ensures { result < limit }
    {
        self.state = self
            .state
            .wrapping_mul(6_364_136_223_846_793_005)
            .wrapping_add(1_442_695_040_888_963_407);
        ((self.state >> 33) % u64::from(limit)) as u32
    }

    // The units that a block needs: mostly few.
    fn need(&mut self) -> u32
        ensures even { result % 2 ≡ 0 }
        ensures least { MIN_BLOCK ≤ result }
    {
        if self.below(8) == 0 {
            6 + 2 * self.below(128)
        } else {
            6 + 2 * self.below(16)
        }
    }

    fn inner(&mut self) -> Inner {
        match self.below(3) {
            0 => Inner::Bf,
            1 => Inner::Aobf,
            _ => Inner::Aoff,
        }
    }
}

// Whether gap `a` is chosen before gap `b`, which lies after it.
fn is_before(inner: Inner, a: Gap, b: Gap) -> bool {
    match inner {
        Inner::Bf => a.size < b.size,
        Inner::Aobf => a.size <= b.size,
        Inner::Aoff => true,
    }
}

// The gap that is chosen of some by rising offset.
fn chosen(inner: Inner, need: u32, gaps: &[Gap]) -> Option<Gap> {
    let mut best = None;
    for gap in gaps {
        if gap.size >= need {
            best = match best {
                Some(other) if is_before(inner, other, *gap) => Some(other),
                _ => Some(*gap),
            };
        }
    }
    best
}

fn greatest(gaps: &[Gap]) -> u32 {
    let mut most = 0;
    for gap in gaps {
        most = most.max(gap.size);
    }
    most
}

// The units of the gap that begins at the offset, or 0.
fn gap_from(gaps: &[Gap], offset: u32) -> u32 {
    for gap in gaps {
        if gap.offset == offset {
            return gap.size;
        }
    }
    0
}

// The units of the gap that ends at the offset, or 0.
fn gap_up_to(gaps: &[Gap], offset: u32) -> u32 {
    for gap in gaps {
        if gap.offset.checked_add(gap.size) == Some(offset) {
            return gap.size;
        }
    }
    0
}

// The units that a block has where it is to have `need` and the gap after it has `after`, or None
// where they are too few.
fn wanted_units(size: u32, after: u32, need: u32) -> Option<u32> {
    if need <= size {
        return Some(if size - need < 6 { size } else { need });
    }
    let rest = size.wrapping_add(after).checked_sub(need)?;
    Some(if rest < 6 {
        need.wrapping_add(rest)
    } else {
        need
    })
}

// What a header says of a block or gap from the offset on. A gap ends directly before it where
// `before` isn't 0.
fn header(offset: u32, size: u32, this_free: bool, before: u32) -> Header {
    Header {
        size,
        this_free,
        prev_free: before > 0,
        last: offset.checked_add(size) == Some(UNITS),
    }
}

// What a gap's first and last unit say.
fn tags_of(gap: Gap) -> (Header, u32) {
    (header(gap.offset, gap.size, true, 0), gap.size)
}

// A carrier, and the list of its blocks.
#[derive(Drop)]
struct Sides {
    carrier: Mbc,
    plain: PlainCarrier,
}

impl Sides {
    fn new(alloc: Global, kept: Inner) -> Result<Sides, OutOfMemory> {
        Ok(Sides {
            carrier: Mbc::new(alloc, PLAN, 1, kept)?,
            plain: PlainCarrier::new(alloc, 1, Kind::Multi, PLAN),
        })
    }

    // One of the blocks, if there is one.
    fn pick(&self, numbers: &mut Numbers) -> Option<BlockAt> {
        let blocks = self.plain.blocks();
        let count = blocks.len();
        if count == 0 || count > 100 {
            return None;
        }
        let index = numbers.below(count as u32);
        blocks.get(index as usize).copied()
    }

    // The units of the largest gap, by the list.
    fn largest(&self, alloc: Global) -> Result<u32, OutOfMemory> {
        Ok(greatest(self.plain.gaps(alloc)?.as_slice()))
    }

    // Places a block in the gap that both choose, if they choose one.
    fn place(
        &mut self,
        rt: &impl Abort,
        alloc: Global,
        inner: Inner,
        need: u32,
        name: u32,
    ) -> Result<(), OutOfMemory>
        requires even { need % 2 ≡ 0 }
        requires least { MIN_BLOCK ≤ need }
    {
        let wanted = chosen(inner, need, self.plain.gaps(alloc)?.as_slice());
        let got = self.carrier.choose(inner, need);
        assert!(rt; got == wanted);
        let Some(gap) = got else {
            return Ok(());
        };
        let placed = self.carrier.place(gap, need, name);
        self.plain.place(alloc, gap.offset, need, name)?;
        let largest = self.largest(alloc)?;
        let size = match gap.size.checked_sub(need) {
            Some(rest) if rest < 6 => gap.size,
            _ => need,
        };
        assert!(rt; placed == Placed { size, largest });
        Ok(())
    }

    // Releases the block.
    fn release(
        &mut self,
        rt: &impl Abort,
        alloc: Global,
        block: BlockAt,
    ) -> Result<(), OutOfMemory> {
        let BlockAt { offset, size, .. } = block;
        assert!(rt; self.carrier.block_at(offset).is_some());
        let freed = self.carrier.release(offset);
        let gaps = self.plain.gaps(alloc)?;
        self.plain.release(alloc, offset)?;
        let wanted = Freed {
            before: gap_up_to(gaps.as_slice(), offset),
            size,
            after: gap_from(gaps.as_slice(), offset.wrapping_add(size)),
            largest: self.largest(alloc)?,
        };
        assert!(rt; freed == wanted);
        Ok(())
    }

    // Lets the block grow, shrink or keep its units, as it is to have `need`, and renames it.
    fn resize(
        &mut self,
        rt: &impl Abort,
        alloc: Global,
        block: BlockAt,
        need: u32,
        name: u32,
    ) -> Result<(), OutOfMemory>
        requires even { need % 2 ≡ 0 }
        requires least { MIN_BLOCK ≤ need }
    {
        let BlockAt { offset, size, .. } = block;
        let stop = offset.wrapping_add(size);
        let after = gap_from(self.plain.gaps(alloc)?.as_slice(), stop);
        let found = self
            .carrier
            .block_at(offset)
            .expect(rt, "the block is there");
        let got = if found.size < need {
            self.carrier.grow(offset, need, name)
        } else if found.size - need >= 6 {
            Some(self.carrier.shrink(offset, need, name))
        } else {
            self.carrier.rename(offset, name);
            None
        };
        let Some(units) = wanted_units(size, after, need) else {
            assert!(rt; got == None);
            return Ok(());
        };
        self.plain.refit(
            alloc,
            BlockAt {
                name,
                offset,
                size: units,
            },
        )?;
        if units != size {
            let wanted = Resized {
                was: size,
                after,
                size: units,
                largest: self.largest(alloc)?,
            };
            assert!(rt; got == Some(wanted));
        }
        Ok(())
    }

    // Compares what both say of the block, and of the gap after it.
    fn compare_block(&self, rt: &impl Abort, gaps: &[Gap], block: BlockAt) {
        let BlockAt { name, offset, size } = block;
        let stop = offset.wrapping_add(size);
        let (before, after) = (gap_up_to(gaps, offset), gap_from(gaps, stop));
        assert!(rt; self.carrier.block_at(offset) == Some(Block { name, size }));
        assert!(rt; self.carrier.gap_behind(offset) == after);
        assert!(rt; block_tag(&self.carrier, offset) == Some(header(offset, size, false, before)));
        let gap = Gap {
            offset: stop,
            size: after,
        };
        let wanted = if after > 0 { Some(tags_of(gap)) } else { None };
        assert!(rt; tags_behind(&self.carrier, offset) == wanted);
    }

    // Compares all that a carrier says of its blocks and gaps.
    fn compare(&self, rt: &impl Abort, alloc: Global) -> Result<(), OutOfMemory> {
        let gaps = self.plain.gaps(alloc)?;
        let gaps = gaps.as_slice();
        let mut allocated = 0u32;
        let mut count = 0u32;
        for block in self.plain.blocks() {
            self.compare_block(rt, gaps, *block);
            allocated = allocated.wrapping_add(block.size);
            count = count.wrapping_add(1);
        }
        let lowest = gaps.first().copied();
        assert!(rt;
            lowest_tags(&self.carrier) == lowest.map(|gap: Gap| (gap.offset, tags_of(gap)))
        );
        assert!(rt; self.carrier.largest() == greatest(gaps));
        assert!(rt; self.carrier.allocated() == allocated);
        assert!(rt; self.carrier.len() == count);
        assert!(rt; self.carrier.is_empty() == (count == 0));
        Ok(())
    }

    // Compares the gaps that are chosen in each order.
    fn compare_choices(
        &self,
        rt: &impl Abort,
        alloc: Global,
        need: u32,
    ) -> Result<(), OutOfMemory> {
        let gaps = self.plain.gaps(alloc)?;
        for inner in [Inner::Bf, Inner::Aobf, Inner::Aoff] {
            assert!(rt; self.carrier.choose(inner, need) == chosen(inner, need, gaps.as_slice()));
        }
        Ok(())
    }

    // Looks for a block at some offset, mostly in vain.
    fn look(&self, rt: &impl Abort, offset: u32) {
        let mut wanted = None;
        for block in self.plain.blocks() {
            if block.offset == offset {
                wanted = Some(Block {
                    name: block.name,
                    size: block.size,
                });
            }
        }
        assert!(rt; self.carrier.block_at(offset) == wanted);
    }

    // One operation. Blocks of the same name lie side by side, and of the name 0 too.
    fn step(
        &mut self,
        rt: &impl Abort,
        alloc: Global,
        numbers: &mut Numbers,
        frees: u32,
    ) -> Result<(), OutOfMemory> {
        let name = numbers.below(4);
        let need = numbers.need();
        let kind = numbers.below(16);
        let Some(block) = self.pick(numbers) else {
            return self.place(rt, alloc, numbers.inner(), need, name);
        };
        if kind < frees {
            self.release(rt, alloc, block)
        } else if kind < 10 {
            self.resize(rt, alloc, block, need, name)
        } else {
            self.place(rt, alloc, numbers.inner(), need, name)
        }
    }
}

#[test]
fn a_carrier_does_as_the_list_of_its_blocks(rt: HostRuntime) -> Result<(), Fail> {
    for kept in [Inner::Bf, Inner::Aobf, Inner::Aoff] {
        let mut numbers = Numbers { state: 1 };
        let mut sides = Sides::new(rt.alloc(), kept)?;
        for done in 0..OPERATIONS {
            // Mostly placed at first, mostly released then, and so on in turn.
            let frees = if done / 64 % 2 == 0 { 3 } else { 8 };
            sides.step(&rt, rt.alloc(), &mut numbers, frees)?;
            sides.compare(&rt, rt.alloc())?;
            sides.compare_choices(&rt, rt.alloc(), numbers.need())?;
            sides.look(&rt, numbers.below(UNITS + 8));
        }
    }
    Ok(())
}
