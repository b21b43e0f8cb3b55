//! What makes the text of a trace with a schedule.
ghost use Rattle.std.specs.Prelude.{◌≡◌, ◌≤◌, IfOk, IfErr, OnOk, length};
ghost use Rattle.ea_frame.specs.Language.{HasText};
ghost use Rattle.ea_frame.specs.Whys.{IsTextFault};
ghost use Rattle.ea_steps.specs.Language.{told_steps};
ghost use Rattle.ea_model.specs.declared.units.TheConstants.{MAX_INPUT};
ghost use Rattle.ea_model.specs.Settings.{IsValidConfig};

use crate::telling::tell;
use ea_frame::{Fault, Part};
use ea_model::{Config, List};
use ea_trace::read_trace;
use std::alloc::Global;

/// What tells the steps of a trace with a schedule.
#[derive(Drop)]
pub struct Steps;

impl Part for Steps {
    ghost language = { told_steps };

    ghost needs = { Unit {0} };

    fn text_of(&self, alloc: Global, config: Config, input: &[u8]) -> Result<List<u8>, Fault> {
        let trace = read_trace(alloc, input, config.schedulers)?;
        if !trace.mode.is_scheduled() {
            return Err(Fault::ScheduleWanted);
        }
        Ok(tell(alloc, config, &trace)?)
    }
}
