//! The gaps of an instance's carriers in its bins, where its strategy has bins. A gap of no units
//! is none.
ghost use Rattle.std.specs.Prelude.{◌≡◌, ◌≢◌, ℕ, ◌+◌, ◌-◌, ◌<◌, ◌++◌, ◌^◌, [], List, All, IfSome};
ghost use Rattle.std.specs.Prelude.{IfOk};
ghost use Rattle.std.specs.List.Sorted.{IsPermutation};
ghost use Rattle.ea_goodfit.specs.declared.gaps.BinnedGap as gaps;
ghost use Rattle.ea_goodfit.specs.Gaps.{some_gap, gap_from, CanCut, CanJoin};
ghost use Rattle.ea_employed.specs.Binned.{fit_in, fit_of, HavePlaces, HaveRoom, Hold};

use crate::strategies::fit_of;
use ea_goodfit::{BinnedGap, Bins};
use ea_model::{MIN_BLOCK, OutOfMemory, Strategy};
use std::alloc::Global;

/// The bins of a strategy that has no carriers yet, with places for all gaps of carriers that have
/// `units` units together.
pub fn bins_for(alloc: Global, strategy: Strategy, units: u32) -> Result<Option<Bins>, OutOfMemory>
    ensures fit { IfOk result (λ b. fit_in b ≡ fit_of strategy) }
    ensures empty { IfOk result (λ b. Hold b []) }
    ensures places { IfOk result (HavePlaces units) }
{
    let Some(fit) = fit_of(strategy) else {
        return Ok(None);
    };
    let mut bins = Bins::new(alloc, fit);
    bins.reserve(units / (2 * MIN_BLOCK) + 1)?;
    Ok(Some(bins))
}

/// Notes that a block of `size` units stands at the front of a gap of `whole` units.
pub fn note_placed(bins: &mut Option<Bins>, address: u32, whole: u32, size: u32)
    requires { IfSome bins.old (λ b. CanCut b.held address whole size) }
    ensures fit { fit_in bins.new ≡ fit_in bins.old }
    ensures places { (units : ℕ) → HavePlaces units bins.old → HavePlaces units bins.new }
    ensures cut { (rest : List gaps.BinnedGap) → Hold bins.old (gap_from address whole ++ rest)
        → Hold bins.new (gap_from (address + size) (whole - size) ++ rest) }
{
    if let Some(bins) = bins {
        bins.cut(address, whole, size);
    }
}

/// Notes that the `size` units at the address are free, and one gap with the `before` units before
/// them and the `after` units after them.
pub fn note_released(bins: &mut Option<Bins>, address: u32, before: u32, size: u32, after: u32)
    requires room { HaveRoom bins.old }
    requires held { IfSome bins.old
        (λ b. CanJoin b.held address before size after) }
    ensures fit { fit_in bins.new ≡ fit_in bins.old }
    ensures places { (units : ℕ) → HavePlaces units bins.old → HavePlaces units bins.new }
    ensures joined { (rest : List gaps.BinnedGap)
        → Hold bins.old (gap_from (address - before) before
        ++ (gap_from (address + size) after ++ rest))
        → Hold bins.new (gap_from (address - before) (before + size + after) ++ rest) }
{
    if let Some(bins) = bins {
        bins.join(address, before, size, after);
    }
}

/// Notes the one gap of a carrier that has no blocks and is entered.
pub fn note_entered(bins: &mut Option<Bins>, gap: BinnedGap)
    requires room { HaveRoom bins.old }
    requires size { gap.size + 1 < 2 ^ 32 }
    requires address { 0 < gap.size
        → IfSome bins.old (λ b. All (λ g. g.address ≢ gap.address) b.held) }
    ensures fit { fit_in bins.new ≡ fit_in bins.old }
    ensures places { (units : ℕ) → HavePlaces units bins.old → HavePlaces units bins.new }
    ensures entered { (held : List gaps.BinnedGap) → Hold bins.old held
        → Hold bins.new (some_gap gap ++ held) }
{
    if let Some(bins) = bins {
        bins.put(gap);
    }
}

/// Notes that a carrier without blocks is gone, and its one gap with it.
pub fn note_left(bins: &mut Option<Bins>, gap: BinnedGap)
    requires { IfSome bins.old
        (λ b. (rest : List gaps.BinnedGap) × IsPermutation b.held (some_gap gap ++ rest)) }
    ensures fit { fit_in bins.new ≡ fit_in bins.old }
    ensures places { (units : ℕ) → HavePlaces units bins.old → HavePlaces units bins.new }
    ensures left { (rest : List gaps.BinnedGap) → Hold bins.old (some_gap gap ++ rest)
        → Hold bins.new rest }
{
    if let Some(bins) = bins {
        bins.take(gap);
    }
}
