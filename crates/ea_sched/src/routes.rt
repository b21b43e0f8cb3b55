//! What a row of a release route leaves.
ghost use Rattle.std.specs.Prelude.{◌≡◌, true, IsSome};
ghost use Rattle.ea_model.specs.Instance.{block_in, employed};
ghost use Rattle.ea_machine.specs.Actor.{Actor};
ghost use Rattle.ea_machine.specs.declared.owners.OwnerWord.TheVariants as word;
ghost use Rattle.ea_machine.specs.Releases as releases;
ghost use Rattle.ea_machine.specs.Setup.{migration};
ghost use Rattle.ea_sched.specs.Acting.{IsSame, setup_for, standing_at};
ghost use Rattle.ea_sched.specs.Routes.{turned_of};

use crate::state::Scheduler;
use ea_instance::Held;
use ea_machine::{Gone, Named, Node, OwnerWord, Route};
use ea_model::owner_of;

/// What is left of a release route, if it isn't over, and what first became of its block.
#[derive(Drop)]
pub(crate) struct Turned {
    pub(crate) route: Option<Route<Held>>,
    pub(crate) gone: Gone,
}

/// What first became of the block.
pub(crate) fn first_gone(gone: Gone, now: Gone) -> Gone
    ensures { result ≡ releases.first_gone gone now }
{
    match gone {
        Gone::Open => now,
        Gone::Here | Gone::Queued { .. } => gone,
    }
}

/// The block goes to the queue of an instance.
fn send_to(hand: Named, to: u32, gone: Gone) -> Turned
    ensures { (a : Actor) → turned_of result a ≡ releases.sent_to hand to gone a }
{
    let Named { name, spot } = hand;
    let node = Node::Block { name, spot };
    let gone = first_gone(gone, Gone::Queued { to });
    let route = Some(Route::Pushing { node, to });
    Turned { route, gone }
}

/// The block goes to the queue of the instance that the owner word of its carrier names.
pub(crate) fn forward(hand: Named, present: OwnerWord, gone: Gone) -> Turned
    ensures { (a : Actor) → turned_of result a ≡ releases.forwarded hand gone a present }
{
    match present {
        OwnerWord::Absent | OwnerWord::Returning { .. } => Turned { route: None, gone },
        OwnerWord::Employed { instance } => send_to(hand, instance, gone),
        OwnerWord::Pooled { instance, .. } => send_to(hand, instance, gone),
        OwnerWord::Busy { instance } => send_to(hand, instance, gone),
    }
}

impl<'t> Scheduler<'t> {
    /// An emptied carrier leaves: it is cleared, if the scheduler owns it, else sent home.
    pub(crate) fn leave(&self, content: Held, gone: Gone) -> Turned
        requires { migration (setup_for self.now) ≡ true }
        ensures { (a : Actor) → turned_of result a
            ≡ releases.leaving (setup_for self.now) self.now.number content gone a }
    {
        let route = if owner_of(content.number()) == self.number {
            Some(Route::Clearing { content })
        } else {
            Some(Route::Sending { content })
        };
        Turned { route, gone }
    }

    /// Releases the block in a carrier that the scheduler employs. An emptied carrier leaves, and
    /// one is abandoned if that is due.
    fn release_here(&mut self, hand: Named, gone: Gone) -> Turned
        requires block { IsSome (block_in (employed self.old.instance) hand.spot) }
        requires settings { self.old.instance.settings ≡ (setup_for self.old).settings }
        requires on { migration (setup_for self.old) ≡ true }
        ensures turned { (at : _) → turned_of result (standing_at at self.new)
            ≡ releases.release_here (setup_for self.old) self.old.number hand gone
            (standing_at at self.old) }
        ensures same { IsSame self.old self.new }
    {
        let number = hand.spot.carrier;
        let gone = first_gone(gone, Gone::Here);
        let is_vacant = self.instance.release(hand.spot);
        if is_vacant {
            let content = self.instance.hand_out(number);
            return self.leave(content, gone);
        }
        if self.instance.due(number) {
            let content = self.instance.hand_out(number);
            let route = Some(Route::Abandoning { content });
            return Turned { route, gone };
        }
        Turned { route: None, gone }
    }

    /// The owner word of the block's carrier was read: the block is released here, where the
    /// scheduler employs the carrier, or its pooled carrier is to be made busy; or another
    /// instance releases it.
    pub(crate) fn looked(&mut self, hand: Named, seen: OwnerWord, gone: Gone) -> Turned
        requires block { seen ≡ word.Employed self.old.number
            → IsSome (block_in (employed self.old.instance) hand.spot) }
        requires settings { self.old.instance.settings ≡ (setup_for self.old).settings }
        requires on { migration (setup_for self.old) ≡ true }
        ensures turned { (at : _) → turned_of result (standing_at at self.new)
            ≡ releases.looked (setup_for self.old) self.old.number hand gone
            (standing_at at self.old) seen }
        ensures same { IsSame self.old self.new }
    {
        match seen {
            OwnerWord::Employed { instance } => {
                if instance == self.number {
                    return self.release_here(hand, gone);
                }
                send_to(hand, instance, gone)
            }
            OwnerWord::Pooled { instance, .. } => {
                if instance == self.number {
                    let route = Some(Route::Trying { hand, seen });
                    return Turned { route, gone };
                }
                send_to(hand, instance, gone)
            }
            OwnerWord::Busy { instance } => send_to(hand, instance, gone),
            OwnerWord::Absent | OwnerWord::Returning { .. } => Turned { route: None, gone },
        }
    }
}
