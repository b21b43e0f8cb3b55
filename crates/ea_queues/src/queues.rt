//! The queues, and what is left of walks.
ghost use Rattle.std.specs.Prelude.{◌≡◌, ℕ, ◌⊎◌, ◌+◌, ◌≤◌, [], ◌∷◌, Some, None, IfOk, Contains};
ghost use Rattle.ea_machine.specs.Nodes.{first_node, link_in, pushed};
ghost use Rattle.ea_machine.specs.Rows.{Passes};
ghost use Rattle.ea_machine.specs.Shared.{put};
ghost use Rattle.ea_machine.specs.Table.{link_answer, rest_after};
ghost use Rattle.ea_machine.specs.Alike.{IsNode};
ghost use Rattle.ea_shared.specs.Links.{told_by};
ghost use Rattle.ea_queues.specs.Chains.{HasNone, HasSameCounts, marks_of};

use crate::cells::{Cell, Cells};
use ea_machine::Node;
use ea_model::OutOfMemory;
use ea_shared::Link;
use std::alloc::Global;
use std::marker::Model;

/// The queues of instances, and what is left of their walks. There is a cell for each node, so no
/// call but `new` takes memory. Contracts see the nodes, newest first, by instance from 0 on; how
/// many schedulers there are, from 1 on; and the greatest name.
#[derive(Drop)]
pub struct Queues {
    heads: Vec<Option<Node>>,
    rests: Vec<Option<Node>>,
    cells: Cells,
}

impl Model for Queues {
    ghost use Rattle.ea_queues.specs.Chains.{Queueing, StandFor, queueing_of};

    ghost Value = { Queueing };

    ghost view = { λ q. queueing_of q.heads.items q.rests.items q.cells.names.items
        q.cells.carriers.items };

    ghost invariant = { λ q. StandFor q.heads.items q.rests.items q.cells.names.items
        q.cells.carriers.items (queueing_of q.heads.items q.rests.items q.cells.names.items
        q.cells.carriers.items) };
}

/// What a walk learns when it passes a node, by the node that is next.
fn passed(next: Option<Node>) -> Link
    ensures { told_by result ≡ Passes next }
{
    match next {
        Some(node) => Link::Next { node },
        None => Link::End,
    }
}

impl Queues {
    /// Empty queues of that many schedulers, for nodes of names up to `greatest` and of the
    /// carriers that these may own.
    pub fn new(alloc: Global, schedulers: u32, greatest: u32) -> Result<Queues, OutOfMemory>
        ensures queues { IfOk result (λ q. marks_of q.queues ≡ (λ i. [])) }
        ensures rests { IfOk result (λ q. marks_of q.rests ≡ (λ i. [])) }
        ensures schedulers { IfOk result (λ q. q.schedulers ≡ schedulers) }
        ensures greatest { IfOk result (λ q. q.greatest ≡ greatest) }
    {
        let instances = schedulers as usize + 1;
        let heads = vec![in alloc; None; instances]?;
        let rests = vec![in alloc; None; instances]?;
        let cells = Cells::new(alloc, schedulers, greatest)?;
        Ok(Queues {
            heads,
            rests,
            cells,
        })
    }

    /// Makes the whole queue of `me` its walk: answers its newest node.
    pub fn take_all(&mut self, me: u32) -> Option<Node>
        requires scheduler { me ≤ self.old.schedulers }
        requires walked { marks_of self.old.rests me ≡ [] }
        ensures node { result ≡ first_node (marks_of self.old.queues me) }
        ensures queues { marks_of self.new.queues ≡ put (marks_of self.old.queues) me [] }
        ensures rests { marks_of self.new.rests
            ≡ put (marks_of self.old.rests) me (marks_of self.old.queues me) }
        ensures same { HasSameCounts self.old self.new }
    {
        let newest = self.heads[me as usize];
        self.heads[me as usize] = None;
        self.rests[me as usize] = newest;
        newest
    }

    /// Reads the link of the node, the first of the walk of `me`, and passes the node if it is
    /// linked.
    pub fn take_link(&mut self, me: u32, node: Node) -> Link
        requires scheduler { me ≤ self.old.schedulers }
        requires node { IsNode self.old.schedulers self.old.greatest node }
        requires next { first_node (marks_of self.old.rests me) ≡ Some node }
        ensures link { told_by result ≡ link_answer (marks_of self.old.rests me) }
        ensures queues { marks_of self.new.queues ≡ marks_of self.old.queues }
        ensures rests { marks_of self.new.rests
            ≡ put (marks_of self.old.rests) me (rest_after (marks_of self.old.rests me)) }
        ensures same { HasSameCounts self.old self.new }
    {
        let cell = self.cells.at(node);
        if !cell.linked {
            return Link::Rest;
        }
        self.rests[me as usize] = cell.older;
        passed(cell.older)
    }

    /// Puts the node in front of the queue of `to`, not linked.
    pub fn push(&mut self, to: u32, node: Node)
        requires scheduler { to ≤ self.old.schedulers }
        requires node { IsNode self.old.schedulers self.old.greatest node }
        requires nowhere { HasNone node self.old }
        ensures queues { marks_of self.new.queues
            ≡ put (marks_of self.old.queues) to (pushed node ∷ marks_of self.old.queues to) }
        ensures rests { marks_of self.new.rests ≡ marks_of self.old.rests }
        ensures same { HasSameCounts self.old self.new }
    {
        let older = self.heads[to as usize];
        self.cells.put(
            node,
            Cell {
                older,
                linked: false,
            },
        );
        self.heads[to as usize] = Some(node);
    }

    /// Links the node, which stands in the queue of `to` or in what is left of its walk.
    pub fn link(&mut self, to: u32, node: Node)
        requires scheduler { to ≤ self.old.schedulers }
        requires node { IsNode self.old.schedulers self.old.greatest node }
        requires unlinked { Contains (marks_of self.old.queues to) (pushed node)
            ⊎ Contains (marks_of self.old.rests to) (pushed node) }
        ensures queues { marks_of self.new.queues
            ≡ put (marks_of self.old.queues) to (link_in node (marks_of self.old.queues to)) }
        ensures rests { marks_of self.new.rests
            ≡ put (marks_of self.old.rests) to (link_in node (marks_of self.old.rests to)) }
        ensures same { HasSameCounts self.old self.new }
    {
        let cell = self.cells.at(node);
        self.cells.put(
            node,
            Cell {
                linked: true,
                ..cell
            },
        );
    }

    /// The newest node of the queue of `me`; None exactly where the queue is empty.
    pub fn newest(&self, me: u32) -> Option<Node>
        requires { me ≤ self.now.schedulers }
        ensures { result ≡ first_node (marks_of self.now.queues me) }
    {
        self.heads[me as usize]
    }

    /// What the walk would learn of the node that is the first of what is left of it.
    pub fn link_of(&self, node: Node) -> Link
        requires { IsNode self.now.schedulers self.now.greatest node }
        ensures { (i : ℕ) → first_node (marks_of self.now.rests i) ≡ Some node
            → told_by result ≡ link_answer (marks_of self.now.rests i) }
    {
        let Cell { older, linked } = self.cells.at(node);
        if linked { passed(older) } else { Link::Rest }
    }
}
