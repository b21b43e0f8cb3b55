//! The units of live blocks, name by name.
ghost use Rattle.std.specs.Prelude.{◌≡◌, ◌^◌, ◌<◌, ◌≤◌, All, IfSome, length, sum_by};
ghost use Rattle.std.specs.Option.{option_map_or};
ghost use Rattle.ea_model.specs.Content.{named};
ghost use Rattle.ea_names.specs.declared.groups.TheConstants.{GROUP};
ghost use Rattle.ea_outcome.specs.Resting.{AreGiven, AreLive, HasBlock, HaveBlocks};
ghost use Rattle.ea_outcome.specs.Resting as resting;

use crate::finding::find;
use ea_mbc::Mbc;
use ea_model::Spot;
use ea_names::Names;
use ea_sched::Scheduler;
use ea_shared::Rested;

/// The units of the block at the spot, where its carrier is.
fn units_at<H: Rested<Content = Mbc>>(
    schedulers: &[Scheduler<'_>],
    shared: &H,
    migrates: bool,
    spot: Spot,
) -> u64
    requires schedulers { (H.shared shared.now).schedulers ≡ length schedulers.now }
    requires migrates { migrates ≡ (H.shared shared.now).migrates }
    requires block { HasBlock migrates (H.shared shared.now).places schedulers.now spot }
    ensures units { result
        ≡ resting.units_at migrates (H.shared shared.now).places schedulers.now spot }
    ensures small { result < 2 ^ 32 }
{
    let Some(carrier) = find(schedulers, shared, migrates, spot.carrier) else {
        unreachable!()
    };
    match carrier.block_at(spot) {
        Some(block) => u64::from(block.size),
        None => unreachable!(),
    }
}

/// The units of the blocks at the spots of a group of names.
fn units_of<H: Rested<Content = Mbc>>(
    schedulers: &[Scheduler<'_>],
    shared: &H,
    migrates: bool,
    spots: &[Option<Spot>],
) -> u64
    requires schedulers { (H.shared shared.now).schedulers ≡ length schedulers.now }
    requires migrates { migrates ≡ (H.shared shared.now).migrates }
    requires group { length spots.now ≤ GROUP }
    requires blocks { All (λ s. IfSome s
        (HasBlock migrates (H.shared shared.now).places schedulers.now)) spots.now }
    ensures units { result ≡ sum_by (λ s. option_map_or
        (resting.units_at migrates (H.shared shared.now).places schedulers.now) s 0) spots.now }
    ensures small { result < 2 ^ 41 }
{
    let mut units = 0;
    for place in spots {
        if let Some(spot) = place {
            units += units_at(schedulers, shared, migrates, *spot);
        }
    }
    units
}

/// The units of the blocks of names that a scheduler holds.
fn units_held<H: Rested<Content = Mbc>>(
    schedulers: &[Scheduler<'_>],
    shared: &H,
    migrates: bool,
    names: &Names,
) -> u64
    requires schedulers { (H.shared shared.now).schedulers ≡ length schedulers.now }
    requires migrates { migrates ≡ (H.shared shared.now).migrates }
    requires blocks { HaveBlocks migrates (H.shared shared.now).places schedulers.now
        names.now.held }
    ensures { result
        ≡ resting.units_named migrates (H.shared shared.now).places schedulers.now names.now.held }
{
    let mut units = 0;
    let groups = names.groups();
    for group in groups {
        units += units_of(schedulers, shared, migrates, group);
    }
    units
}

/// The units of the blocks of given names.
fn units_given<H: Rested<Content = Mbc>>(
    schedulers: &[Scheduler<'_>],
    shared: &H,
    migrates: bool,
    greatest: u32,
) -> u64
    requires schedulers { (H.shared shared.now).schedulers ≡ length schedulers.now }
    requires migrates { migrates ≡ (H.shared shared.now).migrates }
    requires greatest { greatest ≡ (H.shared shared.now).greatest }
    requires given { AreGiven greatest (H.shared shared.now).named }
    requires blocks { HaveBlocks migrates (H.shared shared.now).places schedulers.now
        (H.shared shared.now).named }
    ensures { result
        ≡ resting.units_named migrates (H.shared shared.now).places schedulers.now
        (H.shared shared.now).named }
{
    let mut units = 0;
    for before in 0..greatest {
        if let Some(spot) = shared.given(before + 1) {
            units += units_at(schedulers, shared, migrates, spot);
        }
    }
    units
}

/// The units of the blocks of held and of given names.
pub fn live_units<H: Rested<Content = Mbc>>(
    schedulers: &[Scheduler<'_>],
    shared: &H,
    migrates: bool,
    greatest: u32,
) -> u64
    requires schedulers { (H.shared shared.now).schedulers ≡ length schedulers.now }
    requires migrates { migrates ≡ (H.shared shared.now).migrates }
    requires greatest { greatest ≡ (H.shared shared.now).greatest }
    requires given { AreGiven greatest (H.shared shared.now).named }
    requires live { AreLive migrates (H.shared shared.now).places schedulers.now
        (H.shared shared.now).named }
    requires fits { resting.live_units migrates (H.shared shared.now).places schedulers.now
        (H.shared shared.now).named < 2 ^ 64 }
    ensures { result
        ≡ resting.live_units migrates (H.shared shared.now).places schedulers.now
        (H.shared shared.now).named }
{
    let mut units = units_given(schedulers, shared, migrates, greatest);
    for scheduler in schedulers {
        units += units_held(schedulers, shared, migrates, scheduler.names());
    }
    units
}
