//! What makes the text of an input with writes and reads.
ghost use Rattle.std.specs.Prelude.{◌≡◌, ◌&&◌, IfErr, IfOk, OnOk, length};
ghost use Rattle.ea_frame.specs.Language.{HasText};
ghost use Rattle.ea_frame.specs.Whys.{IsTextFault};
ghost use Rattle.ea_model.specs.Settings.{IsValidConfig};
ghost use Rattle.ea_model.specs.Trace.{is_scheduled};
ghost use Rattle.ea_model.specs.declared.units.TheConstants.{MAX_INPUT};
ghost use Rattle.ea_trace.specs.Language.{no_stops};
ghost use Rattle.ea_contents.specs.Command.{contents_traces};

use crate::playing::run_script;
use crate::reader::read_contents;
use crate::text::print_contents;
use ea_frame::{Fault, Part};
use ea_model::{Config, List, Mode, Trace};
use std::alloc::Global;

/// Whether a trace has a schedule of its own, and no scheduler stops.
fn is_run(trace: &Trace) -> bool
    ensures { result ≡ (is_scheduled trace.now.mode && no_stops trace.now.stops.items) }
{
    match trace.mode {
        Mode::Schedule { .. } => trace.stops.as_slice().is_empty(),
        Mode::Threads | Mode::Generated { .. } => false,
    }
}

/// What makes the text of an input with writes and reads.
pub struct ContentsPart;

impl Part for ContentsPart {
    ghost language = { contents_traces };

    ghost needs = { Unit {0} };

    fn text_of(&self, alloc: Global, config: Config, input: &[u8]) -> Result<List<u8>, Fault> {
        let read = read_contents(alloc, input, config.schedulers)?;
        if !is_run(&read.trace) {
            return Err(Fault::ScheduleWanted);
        }
        let ran = run_script(alloc, config, &read)?;
        Ok(print_contents(alloc, &ran.outcome, ran.shown.as_slice())?)
    }
}
