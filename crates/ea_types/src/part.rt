//! What makes the text of an input with several types.
ghost use Rattle.std.specs.Prelude.{◌≡◌, ◌≢◌, ℕ, ◌≤◌, All, IfOk, IfErr, OnOk, length, map};
ghost use Rattle.std.specs.Thread.{IsSync};
ghost use Rattle.ea_frame.specs.Language.{HasText};
ghost use Rattle.ea_frame.specs.Whys.{IsTextFault};
ghost use Rattle.ea_model.specs.declared.units.TheConstants.{MAX_INPUT};
ghost use Rattle.ea_model.specs.Outcome.{plain_outcome};
ghost use Rattle.ea_model.specs.Settings.{IsValidConfig};
ghost use Rattle.ea_model.specs.Trace.{IsValidTrace};
ghost use Rattle.ea_types.specs.Command.{typed_traces};
ghost use Rattle.ea_types.specs.Courses.{AreParts};
ghost use Rattle.ea_types.specs.Input.{AreCounted, AreGiven, AreUnstopped, HaveOneMode, HaveTexts};
ghost use Rattle.ea_types.specs.Output.{AreOutcomes, asked_in};

use crate::given::run_scheduled;
use crate::input::TypedInput;
use crate::output::print_parts;
use crate::reader::read_types;
use crate::threads::run_typed_threads;
use ea_frame::{Fault, Part};
use ea_model::{Config, List, Mode, OutOfMemory, Outcome};
use ea_table::OpenGate;
use std::alloc::Global;
use std::thread::Threads;

/// What makes the text of an input with several types, over what runs their threads.
#[derive(Drop)]
pub struct TypedTraces<'r, R> {
    pub rt: &'r R,
}

impl<'r, R: Threads + Sync> Part for TypedTraces<'r, R> {
    ghost language = { typed_traces };

    ghost needs = { IsSync R.row };

    fn text_of(&self, alloc: Global, config: Config, input: &[u8]) -> Result<List<u8>, Fault> {
        let read = read_types(alloc, config, input)?;
        let outcomes = run_each(self.rt, alloc, config, &read)?;
        Ok(print_parts(self.rt, alloc, read.letters.as_slice(), outcomes.as_slice())?)
    }
}

/// Runs the traces of an input as their mode says: each scheduler on a thread of its own, or all by
/// the schedule.
fn run_each<R: Threads + Sync>(
    rt: &R,
    alloc: Global,
    config: Config,
    input: &TypedInput,
) -> Result<List<Outcome>, OutOfMemory>
    requires config { IsValidConfig config }
    requires valid { All (IsValidTrace config.schedulers) input.now.traces.items }
    requires modes { HaveOneMode input.now.traces.items }
    requires not_generated { AreGiven input.now.traces.items }
    requires unstopped { AreUnstopped input.now.traces.items }
    requires texts { HaveTexts config.schedulers input.now.traces.items }
    requires counts { AreCounted input.now.traces.items
        (map (λ part. part.items) input.now.parts.items) }
    requires places { AreParts (length input.now.traces.items)
        (map (λ part. part.items) input.now.parts.items) }
    ensures { IfOk result (λ outcomes.
        AreOutcomes config (asked_in input.now) (map plain_outcome outcomes.items)) }
{
    let traces = input.traces.as_slice();
    let parts = input.parts.as_slice();
    let Some(first) = traces.first() else {
        return Ok(List::new(alloc));
    };
    match &first.mode {
        Mode::Threads => run_typed_threads(rt, alloc, config, traces, parts, &OpenGate),
        Mode::Schedule { turns } => {
            run_scheduled(alloc, config, traces, parts, turns.as_slice())
        }
        Mode::Generated { .. } => unreachable!(),
    }
}
