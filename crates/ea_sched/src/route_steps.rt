//! A step on a release route: its row, and what comes after the route.
ghost use Rattle.std.specs.Prelude.{◌≡◌, None, OnErr, OnOk};
ghost use Rattle.ea_machine.specs.declared.stages.Stage.TheVariants as stage;
ghost use Rattle.ea_machine.specs.declared.tasks.Task.{Task};
ghost use Rattle.ea_machine.specs.declared.tasks.Why.TheVariants as reason;
ghost use Rattle.ea_sched.specs.Acting.{IsSame, actor_of, setup_for, standing_at};
ghost use Rattle.ea_sched.specs.Asking.{CanCount, CanWorkOff, HasMore};
ghost use Rattle.ea_sched.specs.Creations.{PlansAt, PlansFrom};
ghost use Rattle.ea_sched.specs.Routes.{StartsRoute, TurnedRow, carried_on, turned_of};
ghost use Rattle.ea_sched.specs.Steps.{DidRow, StartsRow};

use crate::routes::Turned;
use crate::state::Scheduler;
use ea_instance::Held;
use ea_machine::{Gone, Route, Stage, Why};
use ea_mbc::Mbc;
use ea_model::OutOfMemory;
use ea_shared::Shared;
use std::alloc::Global;

impl<'t> Scheduler<'t> {
    /// Does the row of the route that is next.
    fn route_row<S: Shared<Content = Mbc>>(
        &mut self,
        shared: &mut S,
        route: Route<Held>,
        gone: Gone,
    ) -> Turned
        requires starts { StartsRoute route gone self.old (S.told shared.old) }
        ensures stays { S.stays shared.old shared.new }
        ensures same { IsSame self.old self.new }
        ensures row { TurnedRow route gone self.old self.new result (S.told shared.old)
            (S.told shared.new) }
    {
        match route {
            Route::Looking { hand } => self.look(shared, hand, gone),
            Route::Trying { hand, seen } => self.busy_try(shared, hand, seen, gone),
            Route::Settling { content } => self.settle(shared, content, gone),
            Route::Abandoning { content } => self.abandon(shared, content, gone),
            Route::Sending { content } => self.send_home(shared, content, gone),
            Route::Clearing { content } => self.clear(shared, content, gone),
            Route::Pushing { node, to } => self.push(shared, node, to, gone),
            Route::Linking { node, to } => self.link(shared, node, to, gone),
        }
    }

    /// Waits for the next row of a route, or, if that is over, does what comes after it: its walk
    /// goes on, or its operation is over.
    fn carry(&mut self, alloc: Global, why: Why, turned: Turned) -> Result<(), OutOfMemory>
        requires walk { turned.route ≡ None → why ≡ reason.Walk → CanWorkOff self.old
            self.old.passed.nodes }
        requires more { (task : Task) → why ≡ reason.For task → HasMore self.old }
        requires counts { CanCount self.old.instance }
        ensures actor { OnOk result ((at : _) → actor_of self.new ≡ carried_on
            (setup_for self.old) self.old.number why (turned_of turned (standing_at at self.old))) }
        ensures memory { OnErr result ((at : _) → PlansFrom self.old (carried_on
            (setup_for self.old) self.old.number why
            (turned_of turned (standing_at at self.old)))) }
        ensures same { IsSame self.old self.new }
    {
        let Turned { route, gone } = turned;
        match route {
            Some(route) => {
                self.stage = Stage::Routed { route, why, gone };
                Ok(())
            }
            None => match why {
                Why::Walk => self.end_walk(alloc),
                Why::For { task } => {
                    self.finish_task(task, gone);
                    Ok(())
                }
            },
        }
    }

    /// Does the row of the route that is next, and goes on by its answer.
    pub(crate) fn go_route<S: Shared<Content = Mbc>>(
        &mut self,
        alloc: Global,
        shared: &mut S,
        route: Route<Held>,
        why: Why,
        gone: Gone,
    ) -> Result<(), OutOfMemory>
        requires starts { StartsRow (stage.Routed route why gone) self.old (S.told shared.old) }
        ensures stays { S.stays shared.old shared.new }
        ensures same { IsSame self.old self.new }
        ensures row { OnOk result (DidRow (stage.Routed route why gone) self.old self.new
            (S.told shared.old) (S.told shared.new)) }
        ensures memory { OnErr result (PlansAt (stage.Routed route why gone) self.old
            (S.told shared.old)) }
    {
        let turned = self.route_row(shared, route, gone);
        self.carry(alloc, why, turned)
    }
}
