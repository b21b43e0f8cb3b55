//! The run of lines in their order.
ghost use Rattle.std.specs.Prelude.{◌≡◌, ◌<◌, ◌≤◌, ◌||◌, [], All, IfOk, OnOk, length, nat_lt};
ghost use Rattle.ea_given.specs.Runs.{HasScheduler, IsRun, Tells, done_after, ended_after};
ghost use Rattle.ea_machine.specs.Outcome as machine;
ghost use Rattle.ea_machine.specs.Setup.{setup_of};
ghost use Rattle.ea_model.specs.Outcome.{plain_outcome};
ghost use Rattle.ea_model.specs.Settings.{IsValidConfig};
ghost use Rattle.ea_model.specs.Trace.{IsScheduler, IsValidTrace};
ghost use Rattle.ea_recorded.specs.Order.{recorded_turns};
ghost use Rattle.ea_recorded.specs.Running.{AllTheirs, HasRun, HasRunAll, IsUnstopped};

use ea_given::GivenRun;
use ea_model::{Config, OutOfMemory, Outcome, Trace};
use std::alloc::Global;

/// Whether the operation of a scheduler is over that was its next one when that many were done: it
/// is done, or the scheduler has ended.
fn is_over(run: &GivenRun<'_>, me: u32, done: usize) -> bool
    requires stands { IsRun run.now }
    requires scheduler { HasScheduler me run.now }
    ensures { Tells (λ setup turns.
        result ≡ (ended_after setup turns me || nat_lt done (done_after setup turns me))) run.now }
{
    if run.ended(me) {
        return true;
    }
    done < run.done(me)
}

/// Takes turns of a scheduler until its log has grown.
fn run_line(run: &mut GivenRun<'_>, alloc: Global, me: u32) -> Result<(), OutOfMemory>
    requires stands { IsUnstopped run.old }
    requires scheduler { HasScheduler me run.old }
    ensures { OnOk result (HasRun me run.old run.new) }
{
    let done = run.done(me);
    while !is_over(run, me, done) {
        run.turns(alloc, me, u32::MAX)?;
    }
    Ok(())
}

/// Runs lines of these schedulers, one after another.
fn run_lines(run: &mut GivenRun<'_>, alloc: Global, order: &[u32]) -> Result<(), OutOfMemory>
    requires stands { IsUnstopped run.old }
    requires theirs { AllTheirs order.now run.old }
    ensures { OnOk result (HasRunAll order.now run.old run.new) }
{
    for me in order {
        run_line(run, alloc, *me)?;
    }
    Ok(())
}

/// Runs a trace by its lines in their order, told by their schedulers: the scheduler of the first
/// one takes turns until its log has grown, then that of the second one, up to the last one, and
/// then scheduler 1 goes on until it has ended, then scheduler 2, up to the last one. Answers what
/// is printed of the state then; it fails only where there is no memory.
pub fn run_in_order(
    alloc: Global,
    config: Config,
    trace: &Trace,
    order: &[u32],
) -> Result<Outcome, OutOfMemory>
    requires config { IsValidConfig config }
    requires trace { IsValidTrace config.schedulers trace.now }
    requires texts { length trace.now.texts.items ≡ config.schedulers }
    requires unstopped { trace.now.stops.items ≡ [] }
    requires theirs { All (IsScheduler config.schedulers) order.now }
    ensures { IfOk result (λ outcome. plain_outcome outcome
        ≡ machine.outcome (setup_of config trace.now)
        (recorded_turns (setup_of config trace.now) order.now)) }
{
    let mut run = GivenRun::new(alloc, config, trace)?;
    run_lines(&mut run, alloc, order)?;
    run.complete(alloc)?;
    run.outcome(alloc)
}
