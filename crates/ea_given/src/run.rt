//! The run of a trace by turns: one turn after another, or those of its schedule to its end.
ghost use Rattle.std.specs.Prelude.{◌≡◌, ◌+◌, ◌<◌, ◌≤◌, true, [], ◌∷◌, IfOk, IfSome, OnOk, All};
ghost use Rattle.std.specs.Prelude.{◌-◌, flat_map, get_or, is_some, length, map, option_map};
ghost use Rattle.std.specs.Prelude.{replicate};
ghost use Rattle.std.specs.Option.{option_and_then};
ghost use Rattle.ea_model.specs.Content.{named};
ghost use Rattle.ea_model.specs.Outcome.{plain_outcome};
ghost use Rattle.ea_model.specs.Settings.{IsValidConfig};
ghost use Rattle.ea_model.specs.Trace.{IsScheduler, IsValidTrace, is_scheduled};
ghost use Rattle.ea_machine.specs.Completion.{course_of};
ghost use Rattle.ea_machine.specs.Machine.{start};
ghost use Rattle.ea_machine.specs.Stops.{cut, run_with_stops};
ghost use Rattle.ea_sound.specs.MachineLaws.{Protocol};
ghost use Rattle.ea_sound.specs.Over.{LiesOver};
ghost use Rattle.ea_machine.specs.Outcome as machine;
ghost use Rattle.ea_machine.specs.Setup.{setup_of};
ghost use Rattle.ea_instance.specs.Layouts.{plain_layout};
ghost use Rattle.ea_outcome.specs.Finding.{present_with};
ghost use Rattle.ea_outcome.specs.Layouts.{layouts_in};
ghost use Rattle.ea_given.specs.Between.{IsAt, LooksInRow, block_in, carrier_in, heard_after};
ghost use Rattle.ea_given.specs.Between.{wanted_after};
ghost use Rattle.ea_given.specs.Layouts.{layouts_of_run};
ghost use Rattle.ea_given.specs.Running.{AllRanOut, AllStand, AllStandAt, AllTook};
ghost use Rattle.ea_given.specs.Runs.{FitsSuperCarrier, HasCompleted, HasScheduler, HasTaken, IsRun};
ghost use Rattle.ea_given.specs.Runs.{StandsAfter, StaysInOperation, Tells, done_after, ended_after};
ghost use Rattle.ea_given.specs.Runs.{holds_after, spot_after};

use crate::heard::{Heard, answer_of};
use crate::turns::{run_out, step_some, take_turns};
use ea_instance::Layout;
use ea_mbc::Mbc;
use ea_mem_shared::MemShared;
use ea_model::{
    Block, CarrierLine, Config, Extent, List, NUMBERS, OutOfMemory, Outcome, Spot, Trace, Turns,
};
use ea_outcome::{Found, extent_of, find, layouts_of, outcome_of};
use ea_sched::{Scheduler, Wanted, migrates};
use std::alloc::Global;

/// All schedulers of the run of a trace, in order, before their first step.
fn schedulers_of<'t>(
    alloc: Global,
    config: Config,
    trace: &'t Trace,
) -> Result<Vec<Scheduler<'t>>, OutOfMemory>
    requires config { IsValidConfig config }
    requires trace { IsValidTrace config.schedulers trace.now }
    requires texts { length trace.now.texts.items ≡ config.schedulers }
    ensures { IfOk result (λ schedulers. AllStandAt config trace.now
        (setup_of config trace.now).stops schedulers.items (start (setup_of config trace.now))) }
{
    let mut schedulers = Vec::new(alloc);
    for before in 0..config.schedulers {
        schedulers.push(Scheduler::new(alloc, config, trace, before + 1)?)?;
    }
    Ok(schedulers)
}

/// Takes the turns of a schedule.
fn run_schedule(
    schedulers: &mut [Scheduler<'_>],
    alloc: Global,
    shared: &mut MemShared<Mbc>,
    schedule: &[Turns],
) -> Result<(), OutOfMemory>
    requires stand { AllStand schedulers.old shared.old }
    requires theirs { All (λ t. IsScheduler (length schedulers.old) t.scheduler) schedule.now }
    ensures { OnOk result (AllTook (flat_map (λ t. replicate t.count t.scheduler) schedule.now)
        schedulers.old shared.old schedulers.new shared.new) }
{
    for turns in schedule {
        let index = turns.scheduler as usize - 1;
        take_turns(&mut schedulers[index], alloc, shared, turns.count)?;
    }
    Ok(())
}

/// Steps until the first scheduler has ended or is stopped, then until the next one has, up to the
/// last one.
fn complete(
    schedulers: &mut [Scheduler<'_>],
    alloc: Global,
    shared: &mut MemShared<Mbc>,
) -> Result<(), OutOfMemory>
    requires { AllStand schedulers.old shared.old }
    ensures { OnOk result (AllRanOut schedulers.old shared.old schedulers.new shared.new) }
{
    for scheduler in schedulers.iter_mut() {
        run_out(scheduler, alloc, shared)?;
    }
    Ok(())
}

/// A run by turns, on plain memory: all its schedulers, in order, and what they share. It takes
/// turns of one scheduler or of another, and can be asked between them. Once a call had no memory,
/// nothing is said of the run any more.
#[derive(Drop)]
pub struct GivenRun<'t> {
    config: Config,
    trace: &'t Trace,
    schedulers: Vec<Scheduler<'t>>,
    shared: MemShared<Mbc>,
}

impl<'t> GivenRun<'t> {
    /// The run of a trace before its first turn. It fails only where there is no memory.
    pub fn new(alloc: Global, config: Config, trace: &'t Trace) -> Result<GivenRun<'t>, OutOfMemory>
        requires config { IsValidConfig config }
        requires trace { IsValidTrace config.schedulers trace.now }
        requires texts { length trace.now.texts.items ≡ config.schedulers }
        ensures { IfOk result (StandsAfter config trace.now []) }
    {
        let shared = MemShared::new(alloc, config, trace)?;
        let schedulers = schedulers_of(alloc, config, trace)?;
        Ok(GivenRun {
            config,
            trace,
            schedulers,
            shared,
        })
    }

    /// The scheduler with that number.
    fn scheduler(&self, me: u32) -> &Scheduler<'t>
        requires stands { IsRun self.now }
        requires scheduler { HasScheduler me self.now }
        ensures { result.now ≡ get_or self.now.schedulers.items (me - 1) result.now }
    {
        &self.schedulers[me as usize - 1]
    }

    /// The scheduler with that number, as it stands.
    pub fn at(&self, me: u32) -> &Scheduler<'t>
        requires stands { IsRun self.now }
        requires scheduler { HasScheduler me self.now }
        ensures { Tells (λ setup turns. IsAt setup turns me result.now) self.now }
    {
        self.scheduler(me)
    }

    /// The row that a scheduler wants next.
    pub fn wants(&self, me: u32) -> Wanted
        requires stands { IsRun self.now }
        requires scheduler { HasScheduler me self.now }
        ensures { Tells (λ setup turns. result ≡ wanted_after setup turns me) self.now }
    {
        self.scheduler(me).wants()
    }

    /// What the row will answer that a scheduler wants next, which is this one.
    pub fn answer(&self, me: u32, wanted: Wanted) -> Heard
        requires stands { IsRun self.now }
        requires scheduler { HasScheduler me self.now }
        requires wanted { Tells (λ setup turns. wanted ≡ wanted_after setup turns me) self.now }
        ensures { Tells (λ setup turns. result ≡ heard_after setup turns me) self.now }
    {
        answer_of(&self.shared, me, wanted)
    }

    /// Where the carrier with that number is; None exactly where it isn't there.
    fn carrier(&self, number: u32) -> Option<Found<'_>>
        requires { IsRun self.now }
        ensures { Tells (λ setup turns. option_and_then (present_with number) result
            ≡ carrier_in setup (run_with_stops setup turns) number) self.now }
    {
        if number == 0 {
            return None;
        }
        if number > NUMBERS * self.config.schedulers {
            return None;
        }
        let migrates = migrates(self.config, self.trace);
        find(&self.schedulers, &self.shared, migrates, number)
    }

    /// The line of the carrier with that number, wherever it is; None exactly where it isn't there.
    pub fn line_of(&self, number: u32) -> Option<CarrierLine>
        requires { IsRun self.now }
        ensures { Tells (λ setup turns. result ≡ option_map machine.line_of
            (carrier_in setup (run_with_stops setup turns) number)) self.now }
    {
        self.carrier(number)?.line(number)
    }

    /// The block that begins at the spot, wherever its carrier is; None exactly where none does.
    pub fn block_at(&self, spot: Spot) -> Option<Block>
        requires { IsRun self.now }
        ensures { Tells (λ setup turns. result ≡ option_map named
            (block_in setup (run_with_stops setup turns) spot)) self.now }
    {
        self.carrier(spot.carrier)?.block_at(spot)
    }

    /// Takes one turn of a scheduler: a step, or nothing where that has ended or is stopped. It
    /// fails only where there is no memory.
    pub fn turn(&mut self, alloc: Global, me: u32) -> Result<(), OutOfMemory>
        requires stands { IsRun self.old }
        requires scheduler { HasScheduler me self.old }
        ensures { OnOk result (HasTaken (me ∷ []) self.old self.new) }
    {
        let index = me as usize - 1;
        step_some(&mut self.schedulers[index], alloc, &mut self.shared, 1)?;
        Ok(())
    }

    /// Takes turns of a scheduler, at least one and not more than `most`: looks of a search in a
    /// row, up to its stop, or one turn. Answers how many it took. It fails only where there is no
    /// memory.
    pub fn turns(&mut self, alloc: Global, me: u32, most: u32) -> Result<u32, OutOfMemory>
        requires stands { IsRun self.old }
        requires scheduler { HasScheduler me self.old }
        requires some { 1 ≤ most }
        ensures few { IfOk result (λ count. (1 ≤ count) × (count ≤ most)) }
        ensures taken { IfOk result (λ count. HasTaken (replicate count me) self.old self.new) }
        ensures looks { IfOk result (λ count.
            1 < count → StaysInOperation me (replicate count me) self.old) }
        ensures passed { IfOk result (λ count.
            1 < count → Tells (λ setup turns. LooksInRow setup turns me count) self.old) }
    {
        step_some(
            &mut self.schedulers[me as usize - 1],
            alloc,
            &mut self.shared,
            most,
        )
    }

    /// Takes that many turns of a scheduler; those after its end or its stop change nothing. It
    /// fails only where there is no memory.
    pub fn take_turns(&mut self, alloc: Global, me: u32, count: u32) -> Result<(), OutOfMemory>
        requires stands { IsRun self.old }
        requires scheduler { HasScheduler me self.old }
        ensures { OnOk result (HasTaken (replicate count me) self.old self.new) }
    {
        take_turns(
            &mut self.schedulers[me as usize - 1],
            alloc,
            &mut self.shared,
            count,
        )
    }

    /// Whether a scheduler has ended: its text is done.
    pub fn ended(&self, me: u32) -> bool
        requires stands { IsRun self.now }
        requires scheduler { HasScheduler me self.now }
        ensures { Tells (λ setup turns. result ≡ ended_after setup turns me) self.now }
    {
        self.scheduler(me).ended()
    }

    /// How many operations of a scheduler are done: how many entries its log has.
    pub fn done(&self, me: u32) -> usize
        requires stands { IsRun self.now }
        requires scheduler { HasScheduler me self.now }
        ensures { Tells (λ setup turns. result ≡ done_after setup turns me) self.now }
    {
        self.scheduler(me).log().len()
    }

    /// Where the block of a name begins, if a scheduler holds the name.
    pub fn spot_of(&self, me: u32, name: u32) -> Option<Spot>
        requires stands { IsRun self.now }
        requires scheduler { HasScheduler me self.now }
        ensures { Tells (λ setup turns. result ≡ spot_after setup turns me name) self.now }
    {
        if name > self.trace.greatest {
            return None;
        }
        self.scheduler(me).names().spot_of(name)
    }

    /// Whether a scheduler holds a name.
    pub fn holds(&self, me: u32, name: u32) -> bool
        requires stands { IsRun self.now }
        requires scheduler { HasScheduler me self.now }
        ensures { Tells (λ setup turns. result ≡ holds_after setup turns me name) self.now }
    {
        self.spot_of(me, name).is_some()
    }

    /// The units of the super carrier that the block of a name has which a scheduler holds,
    /// wherever its carrier is. None exactly where the scheduler doesn't hold the name.
    pub fn extent(&self, me: u32, name: u32) -> Option<Extent>
        requires stands { IsRun self.now }
        requires scheduler { HasScheduler me self.now }
        ensures held { Tells (λ setup turns.
            is_some result ≡ holds_after setup turns me name) self.now }
        ensures lies { IfSome result (λ x. Tells (λ setup turns.
            LiesOver setup name x (run_with_stops setup turns)) self.now) }
        ensures fits { IfSome result (λ x. Tells (λ setup turns.
            FitsSuperCarrier setup x) self.now) }
    {
        let spot = self.spot_of(me, name)?;
        Some(extent_of(
            self.config,
            self.trace,
            &self.schedulers,
            &self.shared,
            spot,
        ))
    }

    /// Takes the turns of a schedule.
    fn take(&mut self, alloc: Global, schedule: &[Turns]) -> Result<(), OutOfMemory>
        requires stands { IsRun self.old }
        requires theirs { All (λ t. HasScheduler t.scheduler self.old) schedule.now }
        ensures { OnOk result (HasTaken (flat_map (λ t. replicate t.count t.scheduler) schedule.now)
            self.old self.new) }
    {
        run_schedule(&mut self.schedulers, alloc, &mut self.shared, schedule)
    }

    /// Takes the turns that complete those that were taken: scheduler 1 goes on until it has ended
    /// or is stopped, then scheduler 2, up to the last one.
    pub fn complete(&mut self, alloc: Global) -> Result<(), OutOfMemory>
        requires { IsRun self.old }
        ensures { OnOk result (HasCompleted self.old self.new) }
    {
        complete(&mut self.schedulers, alloc, &mut self.shared)
    }

    /// What is printed of the run as it stands. It fails only where there is no memory.
    pub fn outcome(self, alloc: Global) -> Result<Outcome, OutOfMemory>
        requires { IsRun self }
        ensures { IfOk result (λ outcome. Tells (λ setup turns.
            plain_outcome outcome ≡ machine.outcome setup (cut setup.stops turns)) self.entry) }
    {
        let schedulers = List::from_vec(self.schedulers);
        outcome_of(alloc, self.config, self.trace, schedulers, &self.shared)
    }

    /// The layouts of all carriers of the run as it stands, by number. It fails only where there is
    /// no memory.
    pub fn layouts(&self, alloc: Global) -> Result<List<Layout>, OutOfMemory>
        requires { IsRun self.now }
        ensures { IfOk result (λ layouts. Tells (λ setup turns.
            map plain_layout layouts.items ≡ layouts_in setup (run_with_stops setup turns))
            self.now) }
    {
        layouts_of(
            alloc,
            self.config,
            self.trace,
            &self.schedulers,
            &self.shared,
        )
    }
}

/// Runs a trace from its start to its end: the turns of its schedule, and what completes them.
fn run_to_end<'t>(
    alloc: Global,
    config: Config,
    trace: &'t Trace,
) -> Result<GivenRun<'t>, OutOfMemory>
    requires config { IsValidConfig config }
    requires trace { IsValidTrace config.schedulers trace.now }
    requires texts { length trace.now.texts.items ≡ config.schedulers }
    ensures { IfOk result (StandsAfter config trace.now
        (course_of (setup_of config trace.now) trace.now.mode)) }
{
    let mut run = GivenRun::new(alloc, config, trace)?;
    run.take(alloc, trace.mode.turns_of())?;
    run.complete(alloc)?;
    Ok(run)
}

/// Runs a trace by its schedule: the schedulers take its turns, each one atomic step, and then
/// scheduler 1 goes on until it has ended or is stopped, then scheduler 2, up to the last one; a
/// turn of a scheduler that has ended or is stopped changes nothing. A generated trace, whose
/// operations have to be made before, has no turns. Answers what is printed of the state then; it
/// fails only where there is no memory. Whatever it answers, each run of the trace keeps the
/// machine's protocol, whatever steps its schedulers take.
pub fn run_given(alloc: Global, config: Config, trace: &Trace) -> Result<Outcome, OutOfMemory>
    requires config { IsValidConfig config }
    requires trace { IsValidTrace config.schedulers trace.now }
    requires texts { length trace.now.texts.items ≡ config.schedulers }
    ensures outcome { IfOk result (λ outcome.
        plain_outcome outcome ≡ machine.outcome_of config trace.now) }
    ensures protocol { Protocol (setup_of config trace.now) }
{
    run_to_end(alloc, config, trace)?.outcome(alloc)
}

/// Runs a trace by its schedule as `run_given` does, and answers the layouts of all carriers that
/// are there in the end, by number: with an employer, in the pool, busy or returning to their
/// owner, and those of singleblock carriers. It fails only where there is no memory.
pub fn run_layouts(
    alloc: Global,
    config: Config,
    trace: &Trace,
) -> Result<List<Layout>, OutOfMemory>
    requires config { IsValidConfig config }
    requires trace { IsValidTrace config.schedulers trace.now }
    requires schedule { is_scheduled trace.now.mode ≡ true }
    ensures { IfOk result (λ layouts.
        map plain_layout layouts.items ≡ layouts_of_run config trace.now) }
{
    run_to_end(alloc, config, trace)?.layouts(alloc)
}
