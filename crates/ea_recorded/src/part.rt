//! What makes the text of recorded operations.
ghost use Rattle.std.specs.Prelude.{◌≡◌, IfErr, IfOk, OnOk, length};
ghost use Rattle.ea_frame.specs.Language.{HasText};
ghost use Rattle.ea_frame.specs.Whys.{IsTextFault};
ghost use Rattle.ea_model.specs.Settings.{IsValidConfig};
ghost use Rattle.ea_model.specs.declared.units.TheConstants.{MAX_INPUT};
ghost use Rattle.ea_recorded.specs.Command.{recorded_traces};

use crate::order::run_in_order;
use crate::reader::read_recorded;
use ea_frame::{Fault, Part};
use ea_model::{Config, List};
use ea_report::print;
use std::alloc::Global;

/// What makes the text of recorded operations.
pub struct RecordedPart;

impl Part for RecordedPart {
    ghost language = { recorded_traces };

    ghost needs = { Unit {0} };

    fn text_of(&self, alloc: Global, config: Config, input: &[u8]) -> Result<List<u8>, Fault> {
        let read = read_recorded(alloc, input, config.schedulers)?;
        let config = config.by_rules(read.rules);
        let outcome = run_in_order(alloc, config, &read.trace, read.order.as_slice())?;
        Ok(print(alloc, &outcome)?)
    }
}
