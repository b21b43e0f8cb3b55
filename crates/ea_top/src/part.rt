//! What makes the text of a trace.
ghost use Rattle.std.specs.Prelude.{◌≡◌, ◌≢◌, ℕ, ◌+◌, ◌^◌, ◌<◌, ◌≤◌, IfOk, IfErr, OnOk, length};
ghost use Rattle.std.specs.Thread.{IsSync};
ghost use Rattle.ea_frame.specs.Language.{HasText};
ghost use Rattle.ea_frame.specs.Whys.{IsTextFault};
ghost use Rattle.ea_gen.specs.Generated.{generated_trace};
ghost use Rattle.ea_machine.specs.Outcome.{outcome_of};
ghost use Rattle.ea_model.specs.declared.trace.Mode.TheVariants.{Generated};
ghost use Rattle.ea_model.specs.declared.units.TheConstants.{MAX_INPUT};
ghost use Rattle.ea_model.specs.Outcome.{plain_outcome};
ghost use Rattle.ea_model.specs.Settings.{IsValidConfig};
ghost use Rattle.ea_model.specs.Trace.{IsValidMode, IsValidTrace};
ghost use Rattle.ea_top.specs.Language.{traces};
ghost use Rattle.ea_top.specs.Output.{IsRunOutcome, text_by};

use ea_frame::{Fault, Part};
use ea_gen::make_trace;
use ea_given::run_given;
use ea_model::{Config, Letter, List, Mode, OutOfMemory, Outcome, Trace};
use ea_report::{print_beside, print_summary};
use ea_table::{OpenGate, run_threads};
use ea_trace::read_trace;
use std::alloc::Global;
use std::thread::Threads;

/// What makes the text of a trace, over what runs its threads.
#[derive(Drop)]
pub struct Traces<'r, R> {
    pub rt: &'r R,
}

impl<'r, R: Threads + Sync> Part for Traces<'r, R> {
    ghost language = { traces };

    ghost needs = { IsSync R.row };

    fn text_of(&self, alloc: Global, config: Config, input: &[u8]) -> Result<List<u8>, Fault> {
        let trace = read_trace(alloc, input, config.schedulers)?;
        let outcome = run_trace(self.rt, alloc, config, &trace)?;
        Ok(print_run(self.rt, alloc, &trace.mode, &outcome)?)
    }
}

/// Runs a trace as its mode says: each scheduler on a thread of its own, or all by the schedule, or
/// with the operations that are generated.
fn run_trace<R: Threads + Sync>(
    rt: &R,
    alloc: Global,
    config: Config,
    trace: &Trace,
) -> Result<Outcome, OutOfMemory>
    requires config { IsValidConfig config }
    requires trace { IsValidTrace config.schedulers trace.now }
    ensures { IfOk result (λ outcome. IsRunOutcome config trace.now (plain_outcome outcome)) }
{
    match trace.mode {
        Mode::Threads => run_threads(rt, alloc, config, trace, &OpenGate),
        Mode::Schedule { .. } => run_given(alloc, config, trace),
        Mode::Generated { seed, count } => {
            run_generated(alloc, config, trace.letter, seed, count)
        }
    }
}

/// Makes the operations of a generated trace, and runs it by an empty schedule.
fn run_generated(
    alloc: Global,
    config: Config,
    letter: Letter,
    seed: u32,
    count: u32,
) -> Result<Outcome, OutOfMemory>
    requires config { IsValidConfig config }
    requires mode { IsValidMode config.schedulers (Generated seed count) }
    ensures { IfOk result (λ outcome.
        (let made = generated_trace letter seed config.schedulers count in
        (plain_outcome outcome ≡ outcome_of config made)
        × IsValidTrace config.schedulers made)) }
{
    let trace = make_trace(alloc, letter, seed, config.schedulers, count)?;
    run_given(alloc, config, &trace)
}

/// The text of the outcome of a trace of this mode.
fn print_run<R: Threads + Sync>(
    rt: &R,
    alloc: Global,
    mode: &Mode,
    outcome: &Outcome,
) -> Result<List<u8>, OutOfMemory>
    ensures { IfOk result (λ text. text.items ≡ text_by mode.now outcome.now) }
{
    match mode {
        Mode::Threads | Mode::Schedule { .. } => print_beside(rt, alloc, outcome),
        Mode::Generated { seed, count } => print_summary(alloc, *seed, *count, outcome),
    }
}
