//! The walk through the nodes of a scheduler's queue, and how they are worked off.
ghost use Rattle.std.specs.Prelude.{◌≡◌, true, false, OnErr, OnOk};
ghost use Rattle.ea_machine.specs.Machine as machine;
ghost use Rattle.ea_machine.specs.Walks as walks;
ghost use Rattle.ea_sched.specs.Acting.{IsSame, actor_of, ready_of, setup_for, standing_at};
ghost use Rattle.ea_sched.specs.Asking.{CanCount, CanWorkOff, SuitsNext};
ghost use Rattle.ea_sched.specs.Creations.{PlansFrom};
ghost use Rattle.ea_sched.specs.Passing.{stage_for};
ghost use Rattle.ea_sound.specs.Walking.{CanAllGo, worked};

use crate::passed::Passed;
use crate::releases::release_if_own;
use crate::state::Scheduler;
use ea_instance::{Held, Instance};
use ea_machine::{Gone, Named, Node, Route, Stage, Why};
use ea_model::OutOfMemory;
use std::alloc::Global;

/// Works off the nodes that a walk of scheduler `me`, whose instance this is, has passed, oldest
/// first: releases the blocks, up to the first whose carrier another instance owns, and answers
/// that one, if it is reached.
fn work_off(passed: &mut Passed, instance: &mut Instance, me: u32) -> Option<Named>
    requires { CanAllGo me instance.old passed.old.nodes }
    ensures { (record {
      instance = instance.new;
      left = passed.new.nodes;
      hand = result;
    }) ≡ worked me instance.old passed.old.nodes }
{
    while let Some(node) = passed.take_oldest() {
        let (name, spot) = match node {
            Node::Block { name, spot } => (name, spot),
            Node::Carrier { .. } => unreachable!(),
        };
        if !release_if_own(instance, me, spot) {
            return Some(Named { name, spot });
        }
    }
    None
}

/// Where a scheduler is that is to work off a node of its walk, where carriers migrate.
fn stage_of(node: Node) -> Stage<Held>
    ensures { result ≡ stage_for node }
{
    match node {
        Node::Block { name, spot } => Stage::Routed {
            route: Route::Looking {
                hand: Named { name, spot },
            },
            why: Why::Walk,
            gone: Gone::Open,
        },
        Node::Carrier { number } => Stage::Collecting { number },
    }
}

impl<'t> Scheduler<'t> {
    /// Does the operation itself, once its begin is over; where none is left, its text is done.
    pub(crate) fn operate_next(&mut self, alloc: Global) -> Result<(), OutOfMemory>
        requires next { SuitsNext self.old.instance self.old }
        requires counts { CanCount self.old.instance }
        ensures actor { OnOk result (actor_of self.new ≡ machine.onward (setup_for self.old)
            self.old.number (ready_of self.old)) }
        ensures memory { OnErr result (PlansFrom self.old
            (machine.onward (setup_for self.old) self.old.number (ready_of self.old))) }
        ensures same { IsSame self.old self.new }
    {
        if self.done >= self.text.len() {
            self.stage = Stage::Ended;
            return Ok(());
        }
        let op = self.text[self.done];
        self.operate(alloc, op)
    }

    /// Where carriers migrate: takes the oldest node that its walk passed. A look is to tell who
    /// employs the carrier of a block, and a carrier that came home is to be collected. Where no
    /// node is left, it goes on with the operation itself.
    fn work_oldest(&mut self, alloc: Global) -> Result<(), OutOfMemory>
        requires walk { CanWorkOff self.old self.old.passed.nodes }
        requires on { self.old.migrates ≡ true }
        requires counts { CanCount self.old.instance }
        ensures actor { OnOk result ((at : _) → actor_of self.new ≡ machine.onward
            (setup_for self.old) self.old.number (walks.worked_off (setup_for self.old)
            self.old.number self.old.passed.nodes (standing_at at self.old))) }
        ensures memory { OnErr result ((at : _) → PlansFrom self.old
            (machine.onward (setup_for self.old) self.old.number
            (walks.worked_off (setup_for self.old) self.old.number self.old.passed.nodes
            (standing_at at self.old)))) }
        ensures same { IsSame self.old self.new }
    {
        match self.passed.take_oldest() {
            None => self.operate_next(alloc),
            Some(node) => {
                self.stage = stage_of(node);
                Ok(())
            }
        }
    }

    /// Where carriers don't migrate: works off the nodes that its walk passed, and goes on with the
    /// operation itself, unless the block of one goes to another instance's queue.
    fn work_all(&mut self, alloc: Global) -> Result<(), OutOfMemory>
        requires walk { CanWorkOff self.old self.old.passed.nodes }
        requires off { self.old.migrates ≡ false }
        requires counts { CanCount self.old.instance }
        ensures actor { OnOk result ((at : _) → actor_of self.new ≡ machine.onward
            (setup_for self.old) self.old.number (walks.worked_off (setup_for self.old)
            self.old.number self.old.passed.nodes (standing_at at self.old))) }
        ensures memory { OnErr result ((at : _) → PlansFrom self.old
            (machine.onward (setup_for self.old) self.old.number
            (walks.worked_off (setup_for self.old) self.old.number self.old.passed.nodes
            (standing_at at self.old)))) }
        ensures same { IsSame self.old self.new }
    {
        match work_off(&mut self.passed, &mut self.instance, self.number) {
            None => self.operate_next(alloc),
            Some(hand) => {
                self.send(hand, Why::Walk);
                Ok(())
            }
        }
    }

    /// Works off the nodes that its walk passed, up to the first that takes a row of its own, and
    /// goes on with the operation itself where none does.
    pub(crate) fn end_walk(&mut self, alloc: Global) -> Result<(), OutOfMemory>
        requires walk { CanWorkOff self.old self.old.passed.nodes }
        requires counts { CanCount self.old.instance }
        ensures actor { OnOk result ((at : _) → actor_of self.new ≡ machine.onward
            (setup_for self.old) self.old.number (walks.worked_off (setup_for self.old)
            self.old.number self.old.passed.nodes (standing_at at self.old))) }
        ensures memory { OnErr result ((at : _) → PlansFrom self.old
            (machine.onward (setup_for self.old) self.old.number
            (walks.worked_off (setup_for self.old) self.old.number self.old.passed.nodes
            (standing_at at self.old)))) }
        ensures same { IsSame self.old self.new }
    {
        if self.migrates {
            self.work_oldest(alloc)
        } else {
            self.work_all(alloc)
        }
    }
}
