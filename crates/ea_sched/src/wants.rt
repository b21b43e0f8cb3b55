//! What a scheduler wants next, as a value, and what it has at hand for that.
ghost use Rattle.std.specs.Prelude.{◌≡◌, false, reverse};
ghost use Rattle.ea_model.specs.Content.{is_nil};
ghost use Rattle.ea_machine.specs.Owners.{word_of};
ghost use Rattle.ea_machine.specs.Setup.{migration};
ghost use Rattle.ea_machine.specs.Table as table;
ghost use Rattle.ea_machine.specs.Machine as machine;
ghost use Rattle.ea_sched.specs.Acting.{actor_of, setup_for};
ghost use Rattle.ea_sched.specs.Wants as specs;

use crate::state::Scheduler;
use ea_instance::Held;
use ea_machine::{Named, Node, OwnerWord, Part, Route, Stage, Task, Why};
use ea_model::{Op, Place};

/// A row of the table of atomic steps, with what is told of it: of a carrier that is stored its
/// number and the owner word that it gets; of a look, whether it is of the last part of a search.
#[derive(Debug, Clone, Copy, PartialEq, Eq)]
pub enum Wanted {
    /// Take the whole of its own queue, to walk it.
    TakeAll,
    /// Read the link of the walk's next node.
    TakeLink { node: Node },
    /// Read a carrier's owner word.
    Look { carrier: u32, last: bool },
    /// Put a node in front of an instance's queue.
    Push { node: Node, to: u32 },
    /// Link that node to the older ones.
    Link { node: Node, to: u32 },
    /// Make its own pooled carrier busy, if the owner word is still the one seen.
    BusyTry { carrier: u32, seen: OwnerWord },
    /// Put the busy carrier back into the pool, or employ it where it is empty.
    Settle { carrier: u32, word: OwnerWord },
    /// Put an employed carrier into the pool.
    Abandon { carrier: u32, word: OwnerWord },
    /// Employ a pooled carrier, if the owner word is still the one seen.
    FetchTry { carrier: u32, seen: OwnerWord },
    /// Employ a new carrier.
    Create { carrier: u32 },
    /// Mark an empty carrier of another owner as returning.
    SendHome { carrier: u32 },
    /// Deallocate an empty carrier of its own.
    Clear { carrier: u32 },
    /// Give a name to whoever takes it.
    Give { name: u32 },
    /// Take a name, if it is given.
    TakeTry { name: u32 },
    /// Nothing: its text is done.
    Nothing,
}

/// The owner word of a carrier that `me` puts into the pool.
fn pooled_word(me: u32, content: &Held) -> OwnerWord
    ensures { result ≡ word_of (table.pooled me content.now) }
{
    OwnerWord::Pooled {
        instance: me,
        largest: content.line(me).largest,
    }
}

/// The owner word of a busy carrier once `me` settles it.
fn settled_word(me: u32, content: &Held) -> OwnerWord
    ensures { result ≡ word_of (table.settled_at me content.now (is_nil content.now.blocks)) }
{
    if content.is_empty() {
        return OwnerWord::Employed { instance: me };
    }
    pooled_word(me, content)
}

/// The row that is next on a route of `me`.
fn wanted_on(me: u32, route: &Route<Held>) -> Wanted
    ensures { (next : _) → result ≡ specs.row_told me next false (machine.wants_on route.now) }
{
    match route {
        Route::Looking { hand } => Wanted::Look {
            carrier: hand.spot.carrier,
            last: false,
        },
        Route::Trying { hand, seen } => Wanted::BusyTry {
            carrier: hand.spot.carrier,
            seen: *seen,
        },
        Route::Settling { content } => Wanted::Settle {
            carrier: content.number(),
            word: settled_word(me, content),
        },
        Route::Abandoning { content } => Wanted::Abandon {
            carrier: content.number(),
            word: pooled_word(me, content),
        },
        Route::Sending { content } => Wanted::SendHome {
            carrier: content.number(),
        },
        Route::Clearing { content } => Wanted::Clear {
            carrier: content.number(),
        },
        Route::Pushing { node, to } => Wanted::Push {
            node: *node,
            to: *to,
        },
        Route::Linking { node, to } => Wanted::Link {
            node: *node,
            to: *to,
        },
    }
}

/// The block in the hand on a route that a look or a try may release.
fn hand_on(route: &Route<Held>) -> Option<Named>
    ensures { result ≡ specs.hand_on route.now }
{
    match route {
        Route::Looking { hand } | Route::Trying { hand, .. } => Some(*hand),
        Route::Settling { .. }
        | Route::Abandoning { .. }
        | Route::Sending { .. }
        | Route::Clearing { .. }
        | Route::Pushing { .. }
        | Route::Linking { .. } => None,
    }
}

impl<'t> Scheduler<'t> {
    /// The row that it wants next.
    pub fn wants(&self) -> Wanted
        ensures { result ≡ specs.wanted_of self.now.number (actor_of self.now) }
    {
        match &self.stage {
            Stage::Begin => match self.next {
                None => Wanted::TakeAll,
                Some(node) => Wanted::TakeLink { node },
            },
            Stage::Routed { route, .. } => wanted_on(self.number, route),
            Stage::Collecting { number } => Wanted::Clear { carrier: *number },
            Stage::Searching { at, part, .. } => Wanted::Look {
                carrier: *at,
                last: matches!(part, Part::Pool { .. }),
            },
            Stage::Fetching { at, seen, .. } => Wanted::FetchTry {
                carrier: *at,
                seen: *seen,
            },
            Stage::Creating { plan, .. } => Wanted::Create {
                carrier: plan.number,
            },
            Stage::Giving { given, .. } => Wanted::Give { name: given.name },
            Stage::Taking { name, .. } => Wanted::TakeTry { name: *name },
            Stage::Ended | Stage::Ready => Wanted::Nothing,
        }
    }

    /// The block in its hand that a look or a try may release.
    pub fn hand(&self) -> Option<Named>
        ensures { result ≡ specs.hand_at (actor_of self.now).stage }
    {
        match &self.stage {
            Stage::Routed { route, .. } => hand_on(route),
            _ => None,
        }
    }

    /// Whether a block of its walk is on its route.
    pub fn works_off(&self) -> bool
        ensures { result ≡ specs.works_off_at (actor_of self.now).stage }
    {
        matches!(&self.stage, Stage::Routed { why: Why::Walk, .. })
    }

    /// Where the new block lies of a reallocation that releases the old one.
    pub fn moving(&self) -> Option<Place>
        ensures { result ≡ specs.moving_at (actor_of self.now).stage }
    {
        match &self.stage {
            Stage::Routed {
                why: Why::For {
                    task: Task::Moving { place, .. },
                },
                ..
            } => Some(*place),
            _ => None,
        }
    }

    /// The nodes that its walk passed and that are not worked off, newest first.
    pub fn newest_passed(&self) -> &[Node]
        ensures { reverse result.now ≡ (actor_of self.now).passed }
    {
        self.passed.newest_first()
    }

    /// Whether carriers migrate.
    pub fn migrating(&self) -> bool
        ensures { result ≡ migration (setup_for self.now) }
    {
        self.migrates
    }

    /// The operation that is next, or that it is in; None exactly where its text is done.
    pub fn operation(&self) -> Option<Op>
        ensures { result ≡ specs.first_op (actor_of self.now).todo }
    {
        match self.text.get(self.done) {
            Some(op) => Some(*op),
            None => None,
        }
    }
}
