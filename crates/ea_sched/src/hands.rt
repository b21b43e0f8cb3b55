//! The carrier in a scheduler's hand.
ghost use Rattle.std.specs.Prelude.{◌≡◌, [], ◌∷◌, MatchOption, option_map};
ghost use Rattle.ea_model.specs.Instance.{figures};
ghost use Rattle.ea_machine.specs.Outcome as outcome;
ghost use Rattle.ea_machine.specs.Statistics as statistics;
ghost use Rattle.ea_sched.specs.Acting.{actor_of};

use crate::state::Scheduler;
use ea_instance::Held;
use ea_machine::{Route, Stage};
use ea_model::Figures;

/// The carrier on the route that is about to leave its employer, if there is one.
fn leaving_on(route: &Route<Held>) -> Option<&Held>
    ensures { MatchOption result (statistics.leaving_on route.now ≡ [])
        (λ carrier. statistics.leaving_on route.now ≡ carrier.now ∷ []) }
{
    match route {
        Route::Abandoning { content } | Route::Sending { content } | Route::Clearing { content } =>
            Some(content),
        Route::Looking { .. }
        | Route::Trying { .. }
        | Route::Settling { .. }
        | Route::Pushing { .. }
        | Route::Linking { .. } => None,
    }
}

/// The carrier on the route that was made busy, if there is one.
fn settling_on(route: &Route<Held>) -> Option<&Held>
    ensures { option_map (λ carrier. carrier.now) result ≡ outcome.settling_on route.now }
{
    match route {
        Route::Settling { content } => Some(content),
        Route::Looking { .. }
        | Route::Trying { .. }
        | Route::Abandoning { .. }
        | Route::Sending { .. }
        | Route::Clearing { .. }
        | Route::Pushing { .. }
        | Route::Linking { .. } => None,
    }
}

impl<'t> Scheduler<'t> {
    /// The carrier in its hand that is about to leave its instance, if there is one.
    pub fn leaving(&self) -> Option<&Held>
        ensures { MatchOption result (statistics.leaving_at self.now.stage ≡ [])
            (λ carrier. statistics.leaving_at self.now.stage ≡ carrier.now ∷ []) }
    {
        match &self.stage {
            Stage::Routed { route, .. } => leaving_on(route),
            Stage::Begin
            | Stage::Collecting { .. }
            | Stage::Searching { .. }
            | Stage::Fetching { .. }
            | Stage::Creating { .. }
            | Stage::Giving { .. }
            | Stage::Taking { .. }
            | Stage::Ended
            | Stage::Ready => None,
        }
    }

    /// The carrier in its hand that was made busy, if there is one.
    pub fn settling(&self) -> Option<&Held>
        ensures { option_map (λ carrier. carrier.now) result ≡ outcome.settling_at self.now.stage }
    {
        match &self.stage {
            Stage::Routed { route, .. } => settling_on(route),
            Stage::Begin
            | Stage::Collecting { .. }
            | Stage::Searching { .. }
            | Stage::Fetching { .. }
            | Stage::Creating { .. }
            | Stage::Giving { .. }
            | Stage::Taking { .. }
            | Stage::Ended
            | Stage::Ready => None,
        }
    }

    /// The figures of its main and multiblock carriers, with the one in its hand that is about to
    /// leave.
    pub(crate) fn multi_figures(&self) -> Figures
        ensures { result ≡ figures (statistics.employed_multis (actor_of self.now)) }
    {
        let others = self.instance.multi_figures();
        let Some(carrier) = self.leaving() else {
            return others;
        };
        if carrier.is_single() {
            return others;
        }
        carrier.counted_with(others)
    }

    /// The figures of its singleblock carriers, with the one in its hand that is about to leave.
    pub(crate) fn single_figures(&self) -> Figures
        ensures { result ≡ figures (statistics.employed_singles (actor_of self.now)) }
    {
        let others = self.instance.single_figures();
        let Some(carrier) = self.leaving() else {
            return others;
        };
        if carrier.is_single() {
            return carrier.counted_with(others);
        }
        others
    }
}
