//! What makes the text of a trace with a schedule.
ghost use Rattle.std.specs.Prelude.{◌≡◌, ◌≤◌, IfOk, IfErr, OnOk, length};
ghost use Rattle.ea_frame.specs.Language.{HasText};
ghost use Rattle.ea_frame.specs.Whys.{IsTextFault};
ghost use Rattle.ea_hist.specs.Language.{histograms};
ghost use Rattle.ea_model.specs.declared.units.TheConstants.{MAX_INPUT};
ghost use Rattle.ea_model.specs.Settings.{IsValidConfig};

use crate::text::print_histograms;
use ea_frame::{Fault, Part};
use ea_given::run_layouts;
use ea_model::{Config, List};
use ea_trace::read_trace;
use std::alloc::Global;

/// What makes the histograms of a trace with a schedule.
#[derive(Drop)]
pub struct Histograms;

impl Part for Histograms {
    ghost language = { histograms };

    ghost needs = { Unit {0} };

    fn text_of(&self, alloc: Global, config: Config, input: &[u8]) -> Result<List<u8>, Fault> {
        let trace = read_trace(alloc, input, config.schedulers)?;
        if !trace.mode.is_scheduled() {
            return Err(Fault::ScheduleWanted);
        }
        let layouts = run_layouts(alloc, config, &trace)?;
        Ok(print_histograms(alloc, layouts.as_slice())?)
    }
}
