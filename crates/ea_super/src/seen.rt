//! What is known of the lines that were taken.
ghost use Rattle.std.specs.Prelude.{◌≡◌, ◌+◌, ◌-◌, ◌≤◌, [], All, length};
ghost use Rattle.ea_model.specs.declared.units.TheConstants.{MAX_OPS, MAX_SCHEDULERS};
ghost use Rattle.ea_super.specs.Asked.{AsksPages, count_in};
ghost use Rattle.ea_super.specs.declared.stages.Stage.TheVariants.{Ended};

use crate::stages::Stage;
use crate::takers::Takers;
use ea_model::List;
use ea_segments::Request;

/// What is known of the lines that were taken.
#[derive(Drop)]
pub struct Seen {
    /// How many sections there are to be.
    pub schedulers: u32,
    /// The part that has been reached.
    pub stage: Stage,
    /// How many sections have begun.
    pub section: u32,
    /// Which section took each name.
    pub takers: Takers,
    /// How many requests there are.
    pub count: u32,
    /// The sections that are over.
    pub over: List<List<Request>>,
    /// The requests of the section that was begun last.
    pub requests: List<Request>,
    ghost some_scheduler: { 1 ≤ schedulers },
    ghost few_schedulers: { schedulers ≤ MAX_SCHEDULERS },
    ghost few_sections: { section ≤ schedulers },
    ghost complete: { stage ≡ Ended → section ≡ schedulers },
    ghost few_requests: { count ≤ MAX_OPS },
    ghost counted: { count_in over.items + length requests.items ≤ count },
    ghost numbered: { length over.items ≡ section - 1 },
    ghost begun: { section ≡ 0 → requests.items ≡ [] },
    ghost asked_over: { All (λ s. AsksPages s.items) over.items },
    ghost asked: { AsksPages requests.items },
}
