//! The rows of a release route, each with what it leaves of the route.
ghost use Rattle.std.specs.Prelude.{◌≡◌, ◌<◌};
ghost use Rattle.ea_model.specs.declared.units.TheConstants.{NUMBERS};
ghost use Rattle.ea_model.specs.Content.{Content};
ghost use Rattle.ea_model.specs.Instance as instances;
ghost use Rattle.ea_machine.specs.declared.stages.Route.TheVariants as route;
ghost use Rattle.ea_machine.specs.declared.stages.Stage.{Stage};
ghost use Rattle.ea_machine.specs.Releases as releases;
ghost use Rattle.ea_sched.specs.Acting.{IsSame, standing_at};
ghost use Rattle.ea_sched.specs.Routes.{StartsRoute, TurnedRow};
ghost use Rattle.ea_search.specs.Rooms.{count_of};

use crate::routes::{Turned, first_gone, forward};
use crate::state::Scheduler;
use ea_instance::Held;
use ea_machine::{Gone, Named, Node, OwnerWord, Route};
use ea_mbc::Mbc;
use ea_model::owner_of;
use ea_shared::{Shared, Tried};

impl<'t> Scheduler<'t> {
    /// A look at the owner word of the block's carrier.
    pub(crate) fn look<S: Shared<Content = Mbc>>(
        &mut self,
        shared: &mut S,
        hand: Named,
        gone: Gone,
    ) -> Turned
        requires starts { StartsRoute (route.Looking hand) gone self.old (S.told shared.old) }
        ensures stays { S.stays shared.old shared.new }
        ensures same { IsSame self.old self.new }
        ensures row { TurnedRow (route.Looking hand) gone self.old self.new result
            (S.told shared.old) (S.told shared.new) }
    {
        let seen = shared.look(self.number, hand.spot.carrier);
        self.looked(hand, seen, gone)
    }

    /// A try to make the pooled carrier of the block busy: if it is won, the block is released in
    /// it.
    pub(crate) fn busy_try<S: Shared<Content = Mbc>>(
        &mut self,
        shared: &mut S,
        hand: Named,
        seen: OwnerWord,
        gone: Gone,
    ) -> Turned
        requires starts { StartsRoute (route.Trying hand seen) gone self.old (S.told shared.old) }
        ensures stays { S.stays shared.old shared.new }
        ensures same { IsSame self.old self.new }
        ensures row { TurnedRow (route.Trying hand seen) gone self.old self.new result
            (S.told shared.old) (S.told shared.new) }
    {
        match shared.busy_try(self.number, hand.spot.carrier, seen) {
            Tried::Won { mut content } => {
                content.release(hand.spot.offset);
                self.instance.lower_count();
                let content = Held::multi(content);
                let gone = first_gone(gone, Gone::Here);
                let route = Some(Route::Settling { content });
                Turned { route, gone }
            }
            Tried::Lost { word } => forward(hand, word, gone),
        }
    }

    /// The busy carrier is settled: in the pool again, or, if it is empty, it leaves.
    pub(crate) fn settle<S: Shared<Content = Mbc>>(
        &mut self,
        shared: &mut S,
        content: Held,
        gone: Gone,
    ) -> Turned
        requires starts { StartsRoute (route.Settling content) gone self.old (S.told shared.old) }
        ensures stays { S.stays shared.old shared.new }
        ensures same { IsSame self.old self.new }
        ensures row { TurnedRow (route.Settling content) gone self.old self.new result
            (S.told shared.old) (S.told shared.new) }
    {
        let number = content.number();
        if content.is_empty() {
            shared.settle_employed(self.number, number);
            self.lists.remove(number);
            return self.leave(content, gone);
        }
        let carrier = content.into_multi();
        let largest = carrier.largest();
        shared.settle_pooled(self.number, number, carrier, largest);
        Turned { route: None, gone }
    }

    /// A carrier was abandoned: an own one comes last in the pooled list.
    fn list_abandoned(&mut self, number: u32)
        requires room { instances.owner_of number ≡ self.old.number
            → count_of self.old.lists.lists < NUMBERS }
        ensures same { IsSame self.old self.new }
        ensures listed { (at : Stage Content) → standing_at at self.new
            ≡ releases.abandoned self.old.number number (standing_at at self.old) }
    {
        if owner_of(number) == self.number {
            self.lists.abandoned(number);
        }
    }

    /// The carrier is abandoned into the pool.
    pub(crate) fn abandon<S: Shared<Content = Mbc>>(
        &mut self,
        shared: &mut S,
        content: Held,
        gone: Gone,
    ) -> Turned
        requires starts { StartsRoute (route.Abandoning content) gone self.old (S.told shared.old) }
        ensures stays { S.stays shared.old shared.new }
        ensures same { IsSame self.old self.new }
        ensures row { TurnedRow (route.Abandoning content) gone self.old self.new result
            (S.told shared.old) (S.told shared.new) }
    {
        let number = content.number();
        let carrier = content.into_multi();
        let largest = carrier.largest();
        shared.abandon(self.number, number, carrier, largest);
        self.list_abandoned(number);
        Turned { route: None, gone }
    }

    /// The empty carrier is sent home: its node goes to the queue of its owner.
    pub(crate) fn send_home<S: Shared<Content = Mbc>>(
        &self,
        shared: &mut S,
        content: Held,
        gone: Gone,
    ) -> Turned
        requires starts { StartsRoute (route.Sending content) gone self.now (S.told shared.old) }
        ensures stays { S.stays shared.old shared.new }
        ensures row { TurnedRow (route.Sending content) gone self.now self.now result
            (S.told shared.old) (S.told shared.new) }
    {
        let number = content.number();
        let to = owner_of(number);
        shared.send_home(self.number, number, content.into_multi(), to);
        let node = Node::Carrier { number };
        let route = Some(Route::Pushing { node, to });
        Turned { route, gone }
    }

    /// The empty carrier, which the scheduler owns, is cleared: its number and pages are free
    /// again.
    pub(crate) fn clear<S: Shared<Content = Mbc>>(
        &mut self,
        shared: &mut S,
        content: Held,
        gone: Gone,
    ) -> Turned
        requires starts { StartsRoute (route.Clearing content) gone self.old (S.told shared.old) }
        ensures stays { S.stays shared.old shared.new }
        ensures same { IsSame self.old self.new }
        ensures row { TurnedRow (route.Clearing content) gone self.old self.new result
            (S.told shared.old) (S.told shared.new) }
    {
        let number = content.number();
        shared.clear_own(self.number, number);
        self.instance.disown(number);
        self.instance.discard(content);
        Turned { route: None, gone }
    }

    /// The node of a block, or of a carrier that is sent home, is pushed to an instance's queue.
    pub(crate) fn push<S: Shared<Content = Mbc>>(
        &self,
        shared: &mut S,
        node: Node,
        to: u32,
        gone: Gone,
    ) -> Turned
        requires starts { StartsRoute (route.Pushing node to) gone self.now (S.told shared.old) }
        ensures stays { S.stays shared.old shared.new }
        ensures row { TurnedRow (route.Pushing node to) gone self.now self.now result
            (S.told shared.old) (S.told shared.new) }
    {
        shared.push(self.number, to, node);
        let route = Some(Route::Linking { node, to });
        Turned { route, gone }
    }

    /// The pushed node is linked to the older ones.
    pub(crate) fn link<S: Shared<Content = Mbc>>(
        &self,
        shared: &mut S,
        node: Node,
        to: u32,
        gone: Gone,
    ) -> Turned
        requires starts { StartsRoute (route.Linking node to) gone self.now (S.told shared.old) }
        ensures stays { S.stays shared.old shared.new }
        ensures row { TurnedRow (route.Linking node to) gone self.now self.now result
            (S.told shared.old) (S.told shared.new) }
    {
        shared.link(self.number, to, node);
        Turned { route: None, gone }
    }
}
