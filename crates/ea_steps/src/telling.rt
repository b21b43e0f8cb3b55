//! The run of a trace with a schedule, told step by step.
ghost use Rattle.std.specs.Prelude.{◌≡◌, ◌+◌, ◌-◌, ◌<◌, ◌≤◌, true, [], ◌++◌, All, IfOk, OnOk};
ghost use Rattle.std.specs.Prelude.{flat_map, get_or, length, replicate, set};
ghost use Rattle.ea_model.specs.Settings.{IsValidConfig};
ghost use Rattle.ea_model.specs.Trace.{IsValidTrace, is_scheduled};
ghost use Rattle.ea_machine.specs.Setup.{Setup};
ghost use Rattle.ea_given.specs.Runs.{HasScheduler, HasTaken, IsRun, Tells};
ghost use Rattle.ea_sched.specs.Acting.{stop_line};
ghost use Rattle.ea_steps.specs.Taking.{TakesStep, TakesSteps};
ghost use Rattle.ea_steps.specs.Text.{log_text, steps_text_of};
ghost use Rattle.ea_steps.specs.Told.{AreLines, CountsAll, HasNotedSome, TellsAll, TellsMore};
ghost use Rattle.ea_steps.specs.Fronts.{front_of};
ghost use Rattle.ea_steps.specs.Shown.{Shows};
ghost use Rattle.ea_steps.specs.Told.{TellsToEnd, counted_group};
ghost use Rattle.ea_steps.specs.Told as specs;

use crate::changes::put_changes;
use crate::counts::{Counts, Places};
use crate::front::Front;
use crate::groups::{Group, joined};
use crate::joined::Joined;
use crate::lines::put_log;
use crate::touched::Touched;
use ea_given::{GivenRun, Heard};
use ea_model::{Config, List, OutOfMemory, Trace, Turns};
use ea_report::{put_carriers, put_totals};
use ea_sched::{Scheduler, Wanted};
use std::alloc::Global;

/// The steps of a run that are told.
#[derive(Drop)]
pub(crate) struct Told {
    front: Front,
    counts: Counts,
    /// What the next step can touch. It is kept from step to step, so that no step takes memory
    /// anew for it.
    touched: Touched,
}

/// Which steps may join the last of that many, by those that may join the first: looks go down from
/// carrier to carrier.
fn last_joined(first: Joined, steps: u32) -> Joined
    requires { 1 ≤ steps }
    ensures { result ≡ specs.last_joined first steps }
{
    match first {
        Joined::Looks { carrier } => Joined::Looks {
            carrier: carrier.saturating_sub(steps - 1),
        },
        Joined::Tries { name } => Joined::Tries { name },
        Joined::Apart => Joined::Apart,
    }
}

/// Adds the line of a stop, if the scheduler is stopped.
fn put_stop(
    alloc: Global,
    text: &mut List<u8>,
    me: u32,
    scheduler: &Scheduler<'_>,
) -> Result<(), OutOfMemory>
    ensures { OnOk result (text.new.items
        ≡ text.old.items ++ log_text me (stop_line scheduler.now)) }
{
    let log = scheduler.log();
    put_log(alloc, text, me, log, log.len(), scheduler.stopped_after())
}

/// The lines of what the last of that many steps did: of several, which are looks, that of a stop.
fn lines_of(
    alloc: Global,
    run: &GivenRun<'_>,
    me: u32,
    steps: u32,
    touched: &mut Touched,
) -> Result<List<u8>, OutOfMemory>
    requires stands { IsRun run.now }
    requires scheduler { HasScheduler me run.now }
    requires some { 1 ≤ steps }
    requires noted { HasNotedSome me steps touched.old run.now }
    ensures { IfOk result (λ lines. AreLines me steps touched.old run.now lines.items) }
{
    let mut lines = List::new(alloc);
    if steps == 1 {
        put_changes(alloc, &mut lines, run, me, touched)?;
        return Ok(lines);
    }
    put_stop(alloc, &mut lines, me, run.at(me))?;
    Ok(lines)
}

/// Counts that many steps of scheduler `me`, of which the first wanted this row and had this
/// answer. Answers their group.
fn count(
    counts: &mut Counts,
    me: u32,
    wanted: Wanted,
    heard: Heard,
    steps: u32,
) -> Result<Group, OutOfMemory>
    requires first { 1 ≤ me }
    requires there { me ≤ length counts.old.owns.items }
    requires some { 1 ≤ steps }
    ensures group { IfOk result (λ g. g ≡ counted_group me wanted heard steps counts.old) }
    ensures all { OnOk result (counts.new.all ≡ counts.old.all + steps) }
    ensures owns { OnOk result (counts.new.owns.items ≡ set counts.old.owns.items (me - 1)
        (get_or counts.old.owns.items (me - 1) 0 + steps)) }
{
    let before = counts.last(me);
    counts.add(me, steps)?;
    let last = counts.last(me);
    Ok(Group {
        scheduler: me,
        wanted,
        heard,
        first: Places {
            all: before.all + 1,
            own: before.own + 1,
        },
        last,
        joined: last_joined(joined(wanted, heard), steps),
    })
}

impl Told {
    /// Takes steps of a scheduler that has neither ended nor stopped, at least one and not more
    /// than `most`, and tells them. Answers how many.
    fn take_some(
        &mut self,
        alloc: Global,
        run: &mut GivenRun<'_>,
        me: u32,
        most: u32,
    ) -> Result<u32, OutOfMemory>
        requires stands { IsRun run.old }
        requires scheduler { HasScheduler me run.old }
        requires counts { CountsAll self.old run.old }
        requires takes { Tells (λ setup turns. TakesStep setup turns me) run.old }
        requires some { 1 ≤ most }
        ensures few { IfOk result (λ n. (1 ≤ n) × (n ≤ most)) }
        ensures taken { IfOk result (λ n. HasTaken (replicate n me) run.old run.new) }
        ensures told { IfOk result (λ n. TellsMore (replicate n me) run.old self.old self.new) }
        ensures counts { OnOk result (CountsAll self.new run.new) }
        ensures steps { IfOk result (λ n. Tells (λ setup turns.
            TakesSteps setup turns me n) run.old) }
    {
        let wanted = run.wants(me);
        let heard = run.answer(me, wanted);
        self.touched.note(run, me, wanted, heard)?;
        let steps = run.turns(alloc, me, most)?;
        let lines = lines_of(alloc, run, me, steps, &mut self.touched)?;
        let group = count(&mut self.counts, me, wanted, heard, steps)?;
        self.front.tell(group, lines.as_slice())?;
        Ok(steps)
    }

    /// Takes that many turns of a scheduler, and tells its steps. Those after its end or its stop
    /// are none.
    fn take(
        &mut self,
        alloc: Global,
        run: &mut GivenRun<'_>,
        me: u32,
        turns: u32,
    ) -> Result<(), OutOfMemory>
        requires stands { IsRun run.old }
        requires scheduler { HasScheduler me run.old }
        requires counts { CountsAll self.old run.old }
        ensures taken { OnOk result (HasTaken (replicate turns me) run.old run.new) }
        ensures told { OnOk result (TellsMore (replicate turns me) run.old self.old self.new) }
        ensures counts { OnOk result (CountsAll self.new run.new) }
    {
        let mut left = turns;
        while left > 0 {
            if run.at(me).rests() {
                return run.take_turns(alloc, me, left);
            }
            left -= self.take_some(alloc, run, me, left)?;
        }
        Ok(())
    }

    /// Takes turns of a scheduler until it has ended or is stopped, and tells its steps.
    fn take_all(
        &mut self,
        alloc: Global,
        run: &mut GivenRun<'_>,
        me: u32,
    ) -> Result<(), OutOfMemory>
        requires stands { IsRun run.old }
        requires scheduler { HasScheduler me run.old }
        requires counts { CountsAll self.old run.old }
        ensures told { OnOk result (TellsAll me run.old run.new self.old self.new) }
        ensures counts { OnOk result (CountsAll self.new run.new) }
    {
        while !run.at(me).rests() {
            self.take_some(alloc, run, me, u32::MAX)?;
        }
        Ok(())
    }

    /// Nothing is told yet, of a run of that many schedulers.
    fn new(alloc: Global, schedulers: u32) -> Result<Told, OutOfMemory>
        ensures front { IfOk result (λ told. (setup : Setup)
            → Shows setup (front_of setup []) told.front.text.items told.front.last) }
        ensures all { IfOk result (λ told. told.counts.all ≡ 0) }
        ensures owns { IfOk result (λ told. told.counts.owns.items ≡ replicate schedulers 0) }
    {
        Ok(Told {
            front: Front::new(alloc),
            counts: Counts::new(alloc, schedulers)?,
            touched: Touched::new(alloc),
        })
    }

    /// Takes the turns of a schedule, and tells its steps.
    fn take_schedule(
        &mut self,
        alloc: Global,
        run: &mut GivenRun<'_>,
        schedule: &[Turns],
    ) -> Result<(), OutOfMemory>
        requires stands { IsRun run.old }
        requires counts { CountsAll self.old run.old }
        requires theirs { All (λ t. HasScheduler t.scheduler run.old) schedule.now }
        ensures taken { OnOk result (HasTaken
            (flat_map (λ t. replicate t.count t.scheduler) schedule.now) run.old run.new) }
        ensures told { OnOk result (TellsMore
            (flat_map (λ t. replicate t.count t.scheduler) schedule.now) run.old self.old
            self.new) }
        ensures counts { OnOk result (CountsAll self.new run.new) }
    {
        for turns in schedule {
            self.take(alloc, run, turns.scheduler, turns.count)?;
        }
        Ok(())
    }

    /// Takes the turns that complete those that were taken, and tells its steps.
    fn complete(
        &mut self,
        alloc: Global,
        run: &mut GivenRun<'_>,
        schedulers: u32,
    ) -> Result<(), OutOfMemory>
        requires stands { IsRun run.old }
        requires all { schedulers ≡ run.old.config.schedulers }
        requires counts { CountsAll self.old run.old }
        ensures { OnOk result (TellsToEnd run.old run.new self.old self.new) }
    {
        for before in 0..schedulers {
            self.take_all(alloc, run, before + 1)?;
        }
        Ok(())
    }
}

/// The text of the steps of a trace with a schedule: each of them, and what it did, and then the
/// carriers and their sums as they are in the end. It fails only where there is no memory.
pub(crate) fn tell(alloc: Global, config: Config, trace: &Trace) -> Result<List<u8>, OutOfMemory>
    requires config { IsValidConfig config }
    requires trace { IsValidTrace config.schedulers trace.now }
    requires schedule { is_scheduled trace.now.mode ≡ true }
    ensures { IfOk result (λ text. text.items ≡ steps_text_of config trace.now) }
{
    let mut run = GivenRun::new(alloc, config, trace)?;
    let mut told = Told::new(alloc, config.schedulers)?;
    told.take_schedule(alloc, &mut run, trace.mode.turns_of())?;
    told.complete(alloc, &mut run, config.schedulers)?;
    let outcome = run.outcome(alloc)?;
    let mut text = told.front.finish()?;
    put_carriers(&mut text, outcome.carriers.as_slice())?;
    put_totals(&mut text, outcome.totals)?;
    Ok(text)
}
