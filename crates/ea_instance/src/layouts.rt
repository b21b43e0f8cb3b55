//! The sizes of a carrier's blocks and gaps.
ghost use Rattle.std.specs.Prelude.{◌≡◌, IfOk};
ghost use Rattle.ea_instance.specs.Layouts.{layout_of, plain_layout};

use ea_mbc::{Mbc, Part};
use ea_model::{HEADER_UNITS, List, OutOfMemory};
use ea_sbc::Sbc;
use std::alloc::Global;

/// A carrier's number, and the units of each of its blocks and of each of its gaps, by rising
/// offset. The gap of a singleblock carrier is its tail, if it has one.
#[derive(Drop)]
pub struct Layout {
    pub number: u32,
    pub blocks: List<u32>,
    pub gaps: List<u32>,
}

/// The layout of a multiblock carrier, found by one walk over its headers. It fails only where
/// there is no memory.
pub fn multi_layout(alloc: Global, carrier: &Mbc) -> Result<Layout, OutOfMemory>
    ensures { IfOk result (λ layout. plain_layout layout ≡ layout_of carrier.now) }
{
    let mut blocks = List::new(alloc);
    let mut gaps = List::new(alloc);
    carrier.laid_out();
    let units = carrier.units();
    let mut at = HEADER_UNITS;
    while at < units {
        match carrier.part_at(at) {
            Part::Block { size } => {
                blocks.push(size)?;
                at += size;
            }
            Part::Gap { size } => {
                gaps.push(size)?;
                at += size;
            }
        }
    }
    Ok(Layout {
        number: carrier.number(),
        blocks,
        gaps,
    })
}

/// The layout of a singleblock carrier. It fails only where there is no memory.
pub fn single_layout(alloc: Global, carrier: &Sbc) -> Result<Layout, OutOfMemory>
    ensures { IfOk result (λ layout. plain_layout layout ≡ layout_of carrier.now) }
{
    let mut blocks = List::new(alloc);
    let mut gaps = List::new(alloc);
    if let Some(block) = carrier.block() {
        blocks.push(block.size)?;
    }
    let tail = carrier.tail();
    if tail > 0 {
        gaps.push(tail)?;
    }
    Ok(Layout {
        number: carrier.number(),
        blocks,
        gaps,
    })
}
