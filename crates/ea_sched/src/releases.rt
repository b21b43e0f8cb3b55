//! The release of a block, and the end of an operation.
ghost use Rattle.std.specs.Prelude.{◌≡◌, ◌==◌, IsSome};
ghost use Rattle.ea_model.specs.Instance.{block_in, employed, own_at, owner_of};
ghost use Rattle.ea_machine.specs.Nodes as nodes;
ghost use Rattle.ea_machine.specs.Operations as operations;
ghost use Rattle.ea_machine.specs.Tasks as tasks;
ghost use Rattle.ea_machine.specs.Setup.{migration};
ghost use Rattle.ea_sched.specs.Acting.{IsSame, actor_of, ready_of, setup_for};
ghost use Rattle.ea_sched.specs.Asking.{HasMore, HasName, IsHere};
ghost use Rattle.ea_sound.specs.Releasing as releasing;
ghost use Rattle.ea_sound.specs.Walking as walking;

use crate::state::Scheduler;
use ea_instance::Instance;
use ea_machine::{Gone, Named, Node, Route, Stage, Task, Why};
use ea_model::{Entry, Reports, Spot, owner_of};

/// Releases the block at the spot; a carrier that it leaves without blocks, other than the main
/// one, is deallocated.
fn free_at(instance: &mut Instance, spot: Spot)
    requires block { IsSome (block_in (employed instance.old) spot) }
    requires own { IsSome (own_at instance.old.own spot.carrier) }
    ensures freed { instance.new ≡ releasing.freed_at instance.old spot }
{
    let is_vacant = instance.release(spot);
    if is_vacant {
        instance.dismiss(spot.carrier);
        instance.disown(spot.carrier);
    }
}

/// Where carriers don't migrate, so that their owners employ them: releases the block at the spot,
/// if scheduler `me`, whose instance this is, employs its carrier; else nothing changes. Answers
/// whether it does.
pub fn release_if_own(instance: &mut Instance, me: u32, spot: Spot) -> bool
    requires block { owner_of spot.carrier ≡ me
        → IsSome (block_in (employed instance.old) spot) }
    requires own { owner_of spot.carrier ≡ me
        → IsSome (own_at instance.old.own spot.carrier) }
    ensures own { result ≡ (owner_of spot.carrier == me) }
    ensures left { instance.new ≡ walking.left_by me instance.old spot }
{
    if owner_of(spot.carrier) != me {
        return false;
    }
    free_at(instance, spot);
    true
}

/// What the log says of an operation that released a block.
fn entry_of(task: Task, gone: Gone) -> Entry<Reports>
    ensures { result ≡ tasks.entry_of task gone }
{
    match task {
        Task::Freeing { name } => match gone {
            Gone::Open | Gone::Here => Entry::Free { name },
            Gone::Queued { to } => Entry::FreeQueued { name, to },
        },
        Task::Moving { old, fresh, place } => match gone {
            Gone::Open | Gone::Here => Entry::ReallocMoved { old, fresh, place },
            Gone::Queued { to } => Entry::ReallocQueued {
                old,
                fresh,
                place,
                to,
            },
        },
    }
}

impl<'t> Scheduler<'t> {
    /// The operation is over, with this entry in the log, and the next one begins.
    pub(crate) fn finish(&mut self, entry: Entry<Reports>)
        requires { HasMore self.old }
        ensures actor { actor_of self.new ≡ tasks.logged entry (ready_of self.old) }
        ensures same { IsSame self.old self.new }
    {
        self.log.push_within(entry);
        self.done += 1;
        self.stage = Stage::Begin;
    }

    /// The operation's block is gone, so that the operation is over.
    pub(crate) fn finish_task(&mut self, task: Task, gone: Gone)
        requires { HasMore self.old }
        ensures actor { actor_of self.new ≡ tasks.task_over task gone (ready_of self.old) }
        ensures same { IsSame self.old self.new }
    {
        self.finish(entry_of(task, gone));
    }

    /// Where carriers don't migrate: the block goes to the queue of its carrier's owner.
    pub(crate) fn send(&mut self, hand: Named, why: Why)
        ensures actor { actor_of self.new ≡ walking.sent hand why (actor_of self.old) }
        ensures same { IsSame self.old self.new }
    {
        let Named { name, spot } = hand;
        let to = owner_of(spot.carrier);
        self.stage = Stage::Routed {
            route: Route::Pushing {
                node: Node::Block { name, spot },
                to,
            },
            why,
            gone: Gone::Queued { to },
        };
    }

    /// The name is held no longer, and its block is released: here, which ends the operation, or by
    /// the employer of its carrier, to whose queue it goes. Where carriers migrate, a look at the
    /// carrier's owner word is to tell who that is.
    pub(crate) fn hand_over(&mut self, hand: Named, task: Task)
        requires more { HasMore self.old }
        requires here { IsHere self.old.instance self.old hand }
        ensures actor { actor_of self.new ≡ tasks.hands_over (setup_for self.old)
            self.old.number task hand (ready_of self.old) }
        ensures same { IsSame self.old self.new }
    {
        self.names.let_go(hand.name);
        if self.migrates {
            self.stage = Stage::Routed {
                route: Route::Looking { hand },
                why: Why::For { task },
                gone: Gone::Open,
            };
            return;
        }
        if release_if_own(&mut self.instance, self.number, hand.spot) {
            self.finish_task(task, Gone::Here);
        } else {
            self.send(hand, Why::For { task });
        }
    }

    /// Frees the block of a name; one that isn't held is skipped.
    pub(crate) fn free(&mut self, name: u32)
        requires more { HasMore self.old }
        requires name { HasName self.old.instance self.old name }
        ensures actor { actor_of self.new ≡ operations.freed (setup_for self.old)
            self.old.number name (ready_of self.old)
            (nodes.named_at name self.old.names.held) }
        ensures same { IsSame self.old self.new }
    {
        match self.names.spot_of(name) {
            Some(spot) => self.hand_over(Named { name, spot }, Task::Freeing { name }),
            None => self.finish(Entry::FreeSkipped { name }),
        }
    }
}
