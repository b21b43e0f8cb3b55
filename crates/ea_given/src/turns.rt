//! Turns of one scheduler on plain memory: some, that many, and all that are left.
ghost use Rattle.std.specs.Prelude.{◌≡◌, ◌<◌, ◌≤◌, IfOk, OnOk};
ghost use Rattle.ea_mem_shared.specs.Memory.{told_of};
ghost use Rattle.ea_sched.specs.Looks.{IsQuiet, PassesLooks};
ghost use Rattle.ea_given.specs.Running.{Stands, Took, TookAll};

use ea_mbc::Mbc;
use ea_mem_shared::MemShared;
use ea_model::OutOfMemory;
use ea_sched::Scheduler;
use std::alloc::Global;

/// Takes turns of the scheduler, at least one and not more than `most`: looks of a search in a row,
/// up to its stop, or one step, if it takes any more. Answers how many it took.
pub(crate) fn step_some(
    scheduler: &mut Scheduler<'_>,
    alloc: Global,
    shared: &mut MemShared<Mbc>,
    most: u32,
) -> Result<u32, OutOfMemory>
    requires stands { Stands scheduler.old shared.old }
    requires some { 1 ≤ most }
    ensures few { IfOk result (λ count. (1 ≤ count) × (count ≤ most)) }
    ensures took { IfOk result (λ count. Took count scheduler.old shared.old scheduler.new
        shared.new) }
    ensures quiet { IfOk result (λ count. 1 < count → IsQuiet scheduler.old scheduler.new) }
    ensures uncounted { IfOk result (λ count. 1 < count → PassesLooks count scheduler.old
        (told_of shared.old)) }
{
    let taken = scheduler.step_upto(alloc, shared, most)?;
    Ok(taken.max(1))
}

/// Takes that many turns of the scheduler. Those after its end or its stop change nothing, and are
/// left out.
pub(crate) fn take_turns(
    scheduler: &mut Scheduler<'_>,
    alloc: Global,
    shared: &mut MemShared<Mbc>,
    count: u32,
) -> Result<(), OutOfMemory>
    requires { Stands scheduler.old shared.old }
    ensures { OnOk result (Took count scheduler.old shared.old scheduler.new shared.new) }
{
    let mut left = count;
    while left > 0 {
        if scheduler.rests() {
            return Ok(());
        }
        left -= step_some(scheduler, alloc, shared, left)?;
    }
    Ok(())
}

/// Steps until the scheduler has ended or is stopped.
pub(crate) fn run_out(
    scheduler: &mut Scheduler<'_>,
    alloc: Global,
    shared: &mut MemShared<Mbc>,
) -> Result<(), OutOfMemory>
    requires { Stands scheduler.old shared.old }
    ensures { OnOk result (TookAll scheduler.old shared.old scheduler.new shared.new) }
{
    while !scheduler.rests() {
        step_some(scheduler, alloc, shared, u32::MAX)?;
    }
    Ok(())
}
