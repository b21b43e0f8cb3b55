//! The outcome of a run.

use crate::carriers::{CarrierLine, Totals};
use crate::lists::List;
use crate::logs::Log;

/// What is printed of a run.
#[derive(Drop)]
pub struct Outcome {
    /// What came of the operations of each scheduler in order, scheduler 1's first.
    pub logs: List<Log>,
    /// The carriers that are there at the end, by rising number.
    pub carriers: List<CarrierLine>,
    pub totals: Totals,
}
