//! The rows that are on no route and in no search, each with what a scheduler does once it is
//! answered.
ghost use Rattle.std.specs.Prelude.{◌≡◌, Some, None, OnErr, OnOk};
ghost use Rattle.ea_sched.specs.Acting.{IsSame};
ghost use Rattle.ea_sched.specs.Creations.{PlansAt};
ghost use Rattle.ea_sched.specs.Routes.{CollectedRow};
ghost use Rattle.ea_sched.specs.Steps.{DidRow, StartsRow};
ghost use Rattle.ea_machine.specs.declared.stages.Stage.TheVariants as stage;

use crate::state::Scheduler;
use ea_instance::Held;
use ea_machine::{Named, Node};
use ea_mbc::Mbc;
use ea_model::OutOfMemory;
use ea_shared::{Link, Shared};
use std::alloc::Global;

impl<'t> Scheduler<'t> {
    /// An operation begins: the scheduler takes its queue, and walks it from its newest node on.
    pub(crate) fn take_all<S: Shared<Content = Mbc>>(
        &mut self,
        alloc: Global,
        shared: &mut S,
    ) -> Result<(), OutOfMemory>
        requires starts { StartsRow stage.Begin self.old (S.told shared.old) }
        requires stage { self.old.stage ≡ stage.Begin }
        requires next { self.old.next ≡ None }
        ensures stays { S.stays shared.old shared.new }
        ensures same { IsSame self.old self.new }
        ensures row { OnOk result (DidRow stage.Begin self.old self.new (S.told shared.old)
            (S.told shared.new)) }
        ensures memory { OnErr result (PlansAt stage.Begin self.old (S.told shared.old)) }
    {
        match shared.take_all(self.number) {
            None => self.operate_next(alloc),
            Some(newest) => {
                self.next = Some(newest);
                Ok(())
            }
        }
    }

    /// The walk goes on with its next node; where that isn't linked yet, the walk rests until the
    /// next operation begins.
    pub(crate) fn take_link<S: Shared<Content = Mbc>>(
        &mut self,
        alloc: Global,
        shared: &mut S,
        node: Node,
    ) -> Result<(), OutOfMemory>
        requires starts { StartsRow stage.Begin self.old (S.told shared.old) }
        requires stage { self.old.stage ≡ stage.Begin }
        requires next { self.old.next ≡ Some node }
        ensures stays { S.stays shared.old shared.new }
        ensures same { IsSame self.old self.new }
        ensures row { OnOk result (DidRow stage.Begin self.old self.new (S.told shared.old)
            (S.told shared.new)) }
        ensures memory { OnErr result (PlansAt stage.Begin self.old (S.told shared.old)) }
    {
        match shared.take_link(self.number, node) {
            Link::Rest => self.operate_next(alloc),
            Link::End => {
                self.passed.add(node);
                self.next = None;
                self.end_walk(alloc)
            }
            Link::Next { node: older } => {
                self.passed.add(node);
                self.next = Some(older);
                Ok(())
            }
        }
    }

    /// A carrier of the scheduler's own that came home is cleared: its number and pages are free
    /// again.
    fn collect<S: Shared<Content = Mbc>>(&mut self, shared: &mut S, number: u32)
        requires starts { StartsRow (stage.Collecting number) self.old (S.told shared.old) }
        ensures stays { S.stays shared.old shared.new }
        ensures same { IsSame self.old self.new }
        ensures row { CollectedRow number self.old self.new (S.told shared.old)
            (S.told shared.new) }
    {
        let content = Held::multi(shared.clear_returned(self.number, number));
        self.lists.remove(number);
        self.instance.disown(number);
        self.instance.discard(content);
    }

    /// A carrier that came home is collected, and the walk that brought it goes on.
    pub(crate) fn receive<S: Shared<Content = Mbc>>(
        &mut self,
        alloc: Global,
        shared: &mut S,
        number: u32,
    ) -> Result<(), OutOfMemory>
        requires starts { StartsRow (stage.Collecting number) self.old (S.told shared.old) }
        ensures stays { S.stays shared.old shared.new }
        ensures same { IsSame self.old self.new }
        ensures row { OnOk result (DidRow (stage.Collecting number) self.old self.new
            (S.told shared.old) (S.told shared.new)) }
        ensures memory { OnErr result (PlansAt (stage.Collecting number) self.old
            (S.told shared.old)) }
    {
        self.collect(shared, number);
        self.end_walk(alloc)
    }

    /// A held name is given, to whoever takes it.
    pub(crate) fn give<S: Shared<Content = Mbc>>(&mut self, shared: &mut S, given: Named, to: u32)
        requires starts { StartsRow (stage.Giving given to) self.old (S.told shared.old) }
        ensures stays { S.stays shared.old shared.new }
        ensures same { IsSame self.old self.new }
        ensures row { DidRow (stage.Giving given to) self.old self.new (S.told shared.old)
            (S.told shared.new) }
    {
        shared.give(self.number, given.name, given.spot);
        self.gave(given, to);
    }

    /// One try to take the name.
    pub(crate) fn take_try<S: Shared<Content = Mbc>>(
        &mut self,
        shared: &mut S,
        name: u32,
        tries: u32,
        left: u32,
    )
        requires starts { StartsRow (stage.Taking name tries left) self.old (S.told shared.old) }
        ensures stays { S.stays shared.old shared.new }
        ensures same { IsSame self.old self.new }
        ensures row { DidRow (stage.Taking name tries left) self.old self.new (S.told shared.old)
            (S.told shared.new) }
    {
        let found = shared.take_try(self.number, name);
        self.took(name, tries, left, found);
    }
}
