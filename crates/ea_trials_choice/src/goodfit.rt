//! Gaps in bins: many steps beside a walk over all gaps.
ghost use Rattle.std.specs.Prelude.{◌≡◌, ◌+◌, ◌^◌, ◌<◌, All, OnOk};
ghost use Rattle.std.specs.List.Sorted.{IsPermutation};
ghost use Rattle.ea_model.specs.Keyed.{entered, item_at};
ghost use Rattle.ea_goodfit.specs.Gaps.{address_of};

use ea_goodfit::{BinnedGap, Bins, Fit};
use ea_model::OutOfMemory;
use ea_model::keyed::{enter_within, index_of, item_of};
use std::alloc::Global;
use std::test::Fail;

/// The gap at the address.
fn gap_at(address: u32, gaps: &[BinnedGap]) -> Option<BinnedGap>
    ensures { result ≡ item_at address_of gaps.now address }
{
    Some(*item_of(address, gaps)?)
}

/// Puts the gap into the list, by its address.
fn enter(gap: BinnedGap, gaps: &mut Vec<BinnedGap>) -> Result<(), OutOfMemory>
    ensures { OnOk result (gaps.new.items ≡ entered address_of gap gaps.old.items) }
{
    gaps.reserve(1)?;
    enter_within(gap, gaps);
    Ok(())
}

/// Takes the gap at the address out of the bins and of a plain list, or puts this one there where
/// there is none.
fn turn(bins: &mut Bins, plain: &mut Vec<BinnedGap>, gap: BinnedGap) -> Result<(), OutOfMemory>
    requires same { IsPermutation bins.old.held plain.old.items }
    requires some { All (λ g. 0 < g.size) plain.old.items }
    requires size { 0 < gap.size }
    requires bounded { gap.size + 1 < 2 ^ 32 }
    ensures same { OnOk result (IsPermutation bins.new.held plain.new.items) }
    ensures some { OnOk result (All (λ g. 0 < g.size) plain.new.items) }
{
    let gaps = plain.as_slice();
    if let Some(held) = gap_at(gap.address, gaps) {
        let index = index_of(gap.address, gaps);
        bins.take(held);
        plain.remove(index);
        return Ok(());
    }
    enter(gap, plain)?;
    bins.reserve(1)?;
    bins.put(gap);
    Ok(())
}

/// Whether two gaps lie in one bin.
fn share_a_bin(size: u32, other: u32) -> bool {
    size == other || (size >= 64 && other >= 64 && size.ilog2() == other.ilog2())
}

/// How many of the first `few` gaps lie in the bin of that size.
fn sharing(size: u32, gaps: &[BinnedGap], few: usize) -> u32 {
    let mut count = 0u32;
    for (index, gap) in gaps.iter().enumerate() {
        if index < few && share_a_bin(size, gap.size) {
            count = count.saturating_add(1);
        }
    }
    count
}

/// Whether the gap is taken before the other.
fn comes_first(fit: Fit, gap: BinnedGap, other: BinnedGap) -> bool {
    gap.size < other.size
        || (gap.size == other.size && (fit == Fit::Best) == (other.address < gap.address))
}

/// The gap that is found by a walk over all gaps, by rising address.
fn walked(fit: Fit, need: u32, depth: u32, gaps: &[BinnedGap]) -> Option<BinnedGap> {
    let mut best = None;
    for (index, gap) in gaps.iter().enumerate() {
        let passed = fit == Fit::Good && sharing(gap.size, gaps, index) >= depth;
        if !passed && gap.size >= need {
            best = match best {
                Some(other) if !comes_first(fit, *gap, other) => Some(other),
                _ => Some(*gap),
            };
        }
    }
    best
}

/// How many of 200 steps, each with a search, leave the bins with what a walk finds.
fn agreeing(alloc: Global, fit: Fit, depth: u32) -> Result<u32, OutOfMemory> {
    let mut bins = Bins::new(alloc, fit);
    let mut plain: Vec<BinnedGap> = Vec::new(alloc);
    let mut seed = depth;
    let mut agreeing = 0;
    for step in 0..200u32 {
        seed = seed.wrapping_mul(1_664_525).wrapping_add(1_013_904_223);
        let address = (seed >> 16) % 32;
        let size = 1 + (seed >> 8) % 600;
        turn(&mut bins, &mut plain, BinnedGap { address, size })?;
        let need = (seed >> 12) % 600;
        if bins.find(need, depth) == walked(fit, need, depth, &plain) {
            agreeing += 1;
        }
    }
    Ok(agreeing)
}

#[test]
fn a_search_finds_what_a_walk_over_all_gaps_finds(rt: HostRuntime) -> Result<(), Fail> {
    for fit in [Fit::Good, Fit::Best, Fit::AddressOrderBest] {
        for depth in 1..5 {
            assert!(rt; agreeing(rt.alloc(), fit, depth)? == 200);
        }
    }
    Ok(())
}
