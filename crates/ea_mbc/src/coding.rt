//! What a change of a carrier writes into its units and names.
ghost use Rattle.std.specs.Prelude.{◌≡◌, ◌≢◌, ℕ, ◌+◌, ◌*◌, ◌<◌, ◌≤◌, ◌⊎◌};
ghost use Rattle.std.specs.Prelude.{length, slice_index};
ghost use Rattle.ea_model.specs.declared.units.TheConstants.{MAX_UNITS};
ghost use Rattle.ea_mbc.specs.Coding.{GapCoded, Told, Laid, Cleared};

use ea_model::BlockAt;
use ea_tags::{Header, PagedArray, UnitArray};

/// Writes the header and the size of the gap from `from` up to `to`, if there is one.
pub fn put_gap(tags: &mut UnitArray, end: u32, from: u32, to: u32)
    requires order { from ≤ to }
    requires whole { from < to → from + 2 ≤ to }
    requires within { to ≤ length tags.old }
    requires few { to ≤ MAX_UNITS }
    ensures as_many { length tags.new ≡ length tags.old }
    ensures gap { GapCoded tags.new end from to }
    ensures others { (k : ℕ) → (k < from) ⊎ (to ≤ k)
        → slice_index tags.new k ≡ slice_index tags.old k }
{
    if from == to {
        return;
    }
    let size = to - from;
    let header = Header {
        size,
        this_free: true,
        prev_free: false,
        last: to == end,
    };
    tags.set_header(from, header);
    tags.set_footer(to - 1, size);
}

/// Says in the header at `stop`, where that is not the end, whether a gap ends directly before it.
fn tell(tags: &mut UnitArray, end: u32, stop: u32, prev_free: bool)
    requires within { stop ≤ end }
    requires end { end ≤ length tags.old }
    ensures as_many { length tags.new ≡ length tags.old }
    ensures told { Told tags.old tags.new end stop prev_free }
    ensures others { (k : ℕ) → k ≢ stop → slice_index tags.new k ≡ slice_index tags.old k }
{
    if stop == end {
        return;
    }
    let header = tags.header(stop);
    let size = header.size;
    let told = Header {
        size,
        this_free: header.this_free,
        prev_free,
        last: header.last,
    };
    tags.set_header(stop, told);
}

/// Lays a block, and makes what is left up to `stop`, where the next block or the end is, a gap.
/// `prev_free` says whether a gap ends directly before the block.
pub fn lay(
    tags: &mut UnitArray,
    names: &mut PagedArray,
    end: u32,
    block: BlockAt,
    stop: u32,
    prev_free: bool,
)
    requires some { 1 ≤ block.size }
    requires order { block.offset + block.size ≤ stop }
    requires whole { block.offset + block.size < stop → block.offset + block.size + 2 ≤ stop }
    requires within { stop ≤ end }
    requires long { length tags.old ≡ end }
    requires half { end ≤ 2 * length names.old }
    requires few { end ≤ MAX_UNITS }
    ensures { Laid tags.old tags.new names.old names.new end
        block.offset block.size stop block.name prev_free }
{
    let behind = block.offset + block.size;
    let header = Header {
        size: block.size,
        this_free: false,
        prev_free,
        last: behind == end,
    };
    tags.set_header(block.offset, header);
    put_gap(tags, end, behind, stop);
    tell(tags, end, stop, behind < stop);
    names.set(block.offset / 2, block.name);
}

/// Makes the units from `start` up to `stop`, where the next block or the end is, a gap, with the
/// block at the offset.
pub fn clear(
    tags: &mut UnitArray,
    names: &mut PagedArray,
    end: u32,
    start: u32,
    offset: u32,
    stop: u32,
)
    requires order { (start ≤ offset) × (offset < stop) }
    requires whole { start + 2 ≤ stop }
    requires within { stop ≤ end }
    requires long { length tags.old ≡ end }
    requires half { end ≤ 2 * length names.old }
    requires few { end ≤ MAX_UNITS }
    ensures { Cleared tags.old tags.new names.old names.new end start offset stop }
{
    put_gap(tags, end, start, stop);
    tell(tags, end, stop, true);
    names.set(offset / 2, 0);
}
