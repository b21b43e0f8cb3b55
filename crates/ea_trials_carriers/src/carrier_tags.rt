//! What the units of a carrier say of its blocks and gaps.
ghost use Rattle.std.specs.Prelude.{◌≡◌, ◌<◌};
ghost use Rattle.ea_model.specs.Content.{gap_at, gaps_of};

use ea_mbc::Mbc;
use ea_model::{Gap, Inner};
use ea_tags::Header;

/// The header in the first unit of the block at the offset, if a block begins there.
pub fn block_tag(carrier: &Mbc, offset: u32) -> Option<Header> {
    carrier.block_at(offset)?;
    carrier.laid_out();
    Some(carrier.tags().header(offset))
}

/// The header in the first unit of a gap, and the number in its last unit.
fn gap_tags(carrier: &Mbc, gap: Gap) -> (Header, u32)
    requires some { 0 < gap.size }
    requires gap { gap_at (gaps_of carrier.now) gap.offset ≡ gap.size }
{
    carrier.laid_out();
    let _units = carrier.units();
    let tags = carrier.tags();
    let last = gap.offset + (gap.size - 1);
    (tags.header(gap.offset), tags.footer(last))
}

/// The offset of the lowest gap, if there is a gap, and what its first and its last unit say.
pub fn lowest_tags(carrier: &Mbc) -> Option<(u32, (Header, u32))> {
    let gap = carrier.choose(Inner::Aoff, 1)?;
    Some((gap.offset, gap_tags(carrier, gap)))
}

/// What the first and the last unit say of the gap directly after the block at the offset, if there
/// is such a gap.
pub fn tags_behind(carrier: &Mbc, offset: u32) -> Option<(Header, u32)> {
    let block = carrier.block_at(offset)?;
    let size = carrier.gap_behind(offset);
    if size == 0 {
        return None;
    }
    carrier.laid_out();
    let _units = carrier.units();
    let offset = offset + block.size;
    Some(gap_tags(carrier, Gap { offset, size }))
}
