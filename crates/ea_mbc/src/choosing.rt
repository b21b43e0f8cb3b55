//! What is compared and chosen among gaps.
ghost use Rattle.std.specs.Prelude.{◌≡◌, ◌+◌, ◌≤◌, fold};
ghost use Rattle.ea_model.specs.Content.{gap, taken_of};
ghost use Rattle.ea_model.specs.Choice.{before, better, fitting};
ghost use Rattle.ea_mbc.specs.Walks.{free_of};

use ea_model::{Gap, Inner, MIN_BLOCK};
use ea_tags::Header;

/// Whether the choice takes `a` before `b`.
fn precedes(inner: Inner, a: Gap, b: Gap) -> bool
    ensures { result ≡ before inner a b }
{
    match inner {
        Inner::Bf => a.size < b.size || (a.size == b.size && b.offset < a.offset),
        Inner::Aobf => a.size < b.size || (a.size == b.size && a.offset < b.offset),
        Inner::Aoff => a.offset < b.offset,
    }
}

/// The better of `best` and the gap of `size` units at `at`, if there is one and it fits.
pub fn better_of(inner: Inner, need: u32, best: Option<Gap>, at: u32, size: u32) -> Option<Gap>
    ensures { result ≡ fold (better (before inner)) best (fitting need (gap at (at + size))) }
{
    if size == 0 || size < need {
        return best;
    }
    let gap = Gap { offset: at, size };
    match best {
        None => Some(gap),
        Some(other) => {
            if precedes(inner, gap, other) {
                Some(gap)
            } else {
                Some(other)
            }
        }
    }
}

/// The units of the gap that has this header, or 0 where it is a block's.
pub fn free_units(header: Header) -> u32
    ensures { result ≡ free_of header }
{
    if header.this_free { header.size } else { 0 }
}

/// The units that a block takes of a gap.
pub fn taken(gap: u32, need: u32) -> u32
    requires { need ≤ gap }
    ensures { result ≡ taken_of gap need }
{
    if gap - need >= MIN_BLOCK { need } else { gap }
}
