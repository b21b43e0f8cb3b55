//! What a scheduler keeps.
ghost use Rattle.ea_model.specs.declared.units.TheConstants.{NUMBERS};
ghost use Rattle.std.specs.Prelude.{◌≡◌, ◌+◌, ◌≤◌, false, Some, length};
ghost use Rattle.ea_model.specs.declared.carriers.CarrierPlan.{CarrierPlan};
ghost use Rattle.ea_model.specs.declared.units.TheConstants.{MAX_SCHEDULERS};
ghost use Rattle.ea_model.specs.Trace.{stop_in, texts_of};
ghost use Rattle.ea_machine.specs.declared.asks.Ask.{Ask};
ghost use Rattle.ea_machine.specs.declared.stages.Stage.TheVariants.{Creating};
ghost use Rattle.ea_machine.specs.Setup.{migration, setup_of, text_for};
ghost use Rattle.ea_sched.specs.Brought.{HavePlaces};
ghost use Rattle.ea_sched.specs.Prepared.{planned_content};

use crate::passed::Passed;
use ea_instance::{Held, Instance};
use ea_machine::{Node, Stage};
use ea_mbc::Mbc;
use ea_model::{Config, Log, Op, Trace};
use ea_names::Names;
use ea_search::OwnLists;
use ea_stats::Stats;

/// Scheduler `number` in the run of a trace. Of the run it knows the configuration, the trace, and
/// whether carriers migrate; for itself it keeps its text, how many of its operations are done, its
/// allocator instance, the names that it holds, with a place for each that its text brings, where
/// it is in its operation, the multiblock carrier that it is to create there, if it is to create
/// one, the nodes that its walk passed and the next one, the statistics of its multiblock and of
/// its singleblock carriers, its log, and after how many steps it stops, if it does, and how many
/// are left until then. Once it had no memory it has failed.
pub struct Scheduler<'t> {
    pub(crate) config: Config,
    pub(crate) trace: &'t Trace,
    pub(crate) migrates: bool,
    pub(crate) number: u32,
    pub(crate) text: &'t [Op],
    pub(crate) done: usize,
    pub(crate) instance: Instance,
    pub(crate) lists: OwnLists,
    pub(crate) names: Names,
    pub(crate) stage: Stage<Held>,
    pub(crate) prepared: Option<Mbc>,
    pub(crate) passed: Passed,
    pub(crate) next: Option<Node>,
    pub(crate) mbcs: Stats,
    pub(crate) sbcs: Stats,
    pub(crate) log: Log,
    pub(crate) stop: Option<u32>,
    pub(crate) left: Option<u32>,
    pub(crate) failed: bool,
    ghost migrates_so: { migrates ≡ migration (setup_of config trace.now) },
    ghost schedulers_to: { config.schedulers ≤ MAX_SCHEDULERS },
    ghost number_from: { 1 ≤ number },
    ghost number_to: { number ≤ config.schedulers },
    ghost text_is: { text.now ≡ text_for (texts_of trace.now) number },
    ghost names_upto: { names.greatest ≡ trace.now.greatest },
    ghost places: { HavePlaces names.places text.now },
    ghost stop_is: { stop ≡ stop_in trace.now.stops.items number },
    ghost done_to: { done ≤ length text.now },
    ghost is_prepared: { (ask : Ask) (plan : CarrierPlan) → stage ≡ Creating ask plan
        → plan.single ≡ false → prepared ≡ Some (planned_content plan) },
    ghost lists_room: { lists.room ≡ NUMBERS },
    ghost log_room: { length text.now + 1 ≤ done + log.room },
}

// Written out, so that a drop of one is a call: proofs of what has one are shorter.
impl<'t> Drop for Scheduler<'t> {
    fn drop(self) {
        let Scheduler {
            config: _,
            trace: _,
            migrates: _,
            number: _,
            text: _,
            done: _,
            instance,
            lists,
            names,
            stage,
            prepared,
            passed,
            next: _,
            mbcs,
            sbcs,
            log,
            stop: _,
            left: _,
            failed: _,
        } = self;
        drop(instance);
        drop(lists);
        drop(names);
        drop(stage);
        drop(prepared);
        drop(passed);
        drop(mbcs);
        drop(sbcs);
        drop(log);
    }
}

impl<'t> Scheduler<'t> {
    /// What came of its operations, by value.
    pub(crate) fn into_entries(self) -> Log
        ensures { result ≡ self.entry.log }
    {
        let Scheduler {
            config: _,
            trace: _,
            migrates: _,
            number: _,
            text: _,
            done: _,
            instance: _instance,
            lists: _lists,
            names: _names,
            stage: _stage,
            prepared: _prepared,
            passed: _passed,
            next: _,
            mbcs: _mbcs,
            sbcs: _sbcs,
            log,
            stop: _,
            left: _,
            failed: _,
        } = self;
        log
    }
}
