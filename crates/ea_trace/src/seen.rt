//! What is known of the lines that were taken, beside their turns.
ghost use Rattle.std.specs.Prelude.{◌≤◌, All};
ghost use Rattle.ea_model.specs.declared.units.TheConstants.{MAX_ALL_TRIES, MAX_OPS};
ghost use Rattle.ea_model.specs.declared.units.TheConstants.{MAX_SCHEDULERS, MAX_TURNS};
ghost use Rattle.ea_trace.specs.Ranges.{IsNamed};

use crate::names::Names;
use crate::stages::Stage;
use crate::takes::TakeLine;
use ea_model::{Letter, List, Mode, Op, Stop};

/// What is known of the lines that were taken, beside their turns.
#[derive(Drop)]
pub struct Seen {
    /// How many sections there are to be.
    pub schedulers: u32,
    /// The part that has been reached.
    pub stage: Stage,
    /// How many sections have begun.
    pub section: u32,
    /// The letter of the `type` line.
    pub letter: Option<Letter>,
    /// The mode, if a line has said it; without the turns of the schedule.
    pub mode: Option<Mode>,
    /// What is known of each name.
    pub names: Names,
    /// How many operations there are.
    pub count: u32,
    /// How many tries there are.
    pub tries: u32,
    /// How many turns there are.
    pub turn_count: u32,
    /// The greatest name, or 0.
    pub greatest: u32,
    /// The lines that take a name, in order.
    pub takes: Vec<TakeLine>,
    /// The texts of the sections that are over.
    pub texts: List<List<Op>>,
    /// The text of the section that was begun last.
    pub text: List<Op>,
    /// The stops, in order.
    pub stops: List<Stop>,
    ghost takes_named: { All IsNamed takes.items },
    ghost few_sections: { section ≤ schedulers },
    ghost few_schedulers: { schedulers ≤ MAX_SCHEDULERS },
    ghost few_operations: { count ≤ MAX_OPS },
    ghost few_tries: { tries ≤ MAX_ALL_TRIES },
    ghost few_turns: { turn_count ≤ MAX_TURNS },
}
