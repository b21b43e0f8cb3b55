//! The lines of what a step did: what it could touch is asked for again after it.
ghost use Rattle.std.specs.Prelude.{◌≡◌, ◌++◌, None, OnOk};
ghost use Rattle.ea_given.specs.Runs.{HasScheduler, IsRun};
ghost use Rattle.ea_steps.specs.LookedUp.{AddsGone, AddsGoneIf, AddsMade, AddsShrunk};
ghost use Rattle.ea_steps.specs.Noted.{DoesStep, HasStepped};

use crate::lines::{put_ended, put_gone, put_log, put_made, put_shrunk};
use crate::made::made;
use crate::released::put_all_released;
use crate::touched::Touched;
use ea_given::GivenRun;
use ea_model::{CarrierLine, List, OutOfMemory};
use std::alloc::Global;

/// Adds the line of a carrier that was there, if it has gone: it is the one that the step made, or
/// none is there. Nothing is added for one that is the last one that was asked for.
fn put_gone_if(
    text: &mut List<u8>,
    run: &GivenRun<'_>,
    made: Option<u32>,
    last: Option<u32>,
    number: u32,
) -> Result<(), OutOfMemory>
    requires { IsRun run.now }
    ensures { OnOk result (AddsGoneIf run.now text.old.items text.new.items made last number) }
{
    if let Some(before) = last {
        if before == number {
            return Ok(());
        }
    }
    if let Some(new) = made {
        if new == number {
            return put_gone(text, number);
        }
    }
    if run.line_of(number).is_some() {
        return Ok(());
    }
    put_gone(text, number)
}

/// Adds the lines of the carriers that went, of numbers that don't fall.
pub(crate) fn put_all_gone(
    text: &mut List<u8>,
    run: &GivenRun<'_>,
    made: Option<u32>,
    numbers: &[u32],
) -> Result<(), OutOfMemory>
    requires { IsRun run.now }
    ensures { OnOk result
        (AddsGone run.now text.old.items text.new.items made None numbers.now) }
{
    let mut last = None;
    for number in numbers {
        put_gone_if(text, run, made, last, *number)?;
        last = Some(*number);
    }
    Ok(())
}

/// Adds the line of a carrier that was there, if it has fewer pages than before.
pub(crate) fn put_shrunk_if(
    text: &mut List<u8>,
    run: &GivenRun<'_>,
    made: Option<u32>,
    before: Option<CarrierLine>,
) -> Result<(), OutOfMemory>
    requires { IsRun run.now }
    ensures { OnOk result (AddsShrunk run.now text.old.items text.new.items made before) }
{
    let Some(before) = before else {
        return Ok(());
    };
    if let Some(new) = made {
        if new == before.number {
            return Ok(());
        }
    }
    let Some(now) = run.line_of(before.number) else {
        return Ok(());
    };
    if now.pages < before.pages {
        return put_shrunk(text, now);
    }
    Ok(())
}

/// Adds the line of the carrier that the step made, if it made one.
pub(crate) fn put_made_if(
    text: &mut List<u8>,
    run: &GivenRun<'_>,
    made: Option<u32>,
) -> Result<(), OutOfMemory>
    requires { IsRun run.now }
    ensures { OnOk result (AddsMade run.now text.old.items text.new.items made) }
{
    let Some(number) = made else {
        return Ok(());
    };
    let Some(now) = run.line_of(number) else {
        return Ok(());
    };
    put_made(text, now)
}

/// Adds the lines of what the step of scheduler `me` did, of which that was noted before it.
pub(crate) fn put_changes(
    alloc: Global,
    text: &mut List<u8>,
    run: &GivenRun<'_>,
    me: u32,
    touched: &mut Touched,
) -> Result<(), OutOfMemory>
    requires stands { IsRun run.now }
    requires scheduler { HasScheduler me run.now }
    requires stepped { HasStepped me touched.old run.now }
    ensures { OnOk result (DoesStep me touched.old run.now text.old.items text.new.items) }
{
    let made = made(run, me, touched);
    put_all_released(text, run, me, touched)?;
    touched.carriers.sort_unstable();
    put_all_gone(text, run, made, &touched.carriers)?;
    put_shrunk_if(text, run, made, touched.resized)?;
    put_made_if(text, run, made)?;
    let scheduler = run.at(me);
    let stopped = scheduler.stopped_after();
    put_log(alloc, text, me, scheduler.log(), touched.entries, stopped)?;
    if scheduler.ended() {
        put_ended(text, me)?;
    }
    Ok(())
}
