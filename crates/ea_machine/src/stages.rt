//! Where a scheduler is in its operation. A type parameter stands for the content of a carrier:
//! with the contents of the definitions it is theirs, and with what keeps them that of the code.

use crate::asks::Ask;
use crate::nodes::{Named, Node};
use crate::owners::OwnerWord;
use crate::parts::Part;
use crate::tasks::{Gone, Why};
use ea_model::CarrierPlan;

/// The release route of a block, by the row that is next. A content on it is in the scheduler's
/// hand.
#[derive(Drop)]
pub enum Route<C> {
    /// A look at the owner word of the block's carrier.
    Looking { hand: Named },
    /// A try to make the pooled carrier of the block busy.
    Trying { hand: Named, seen: OwnerWord },
    /// The block was released in the busy carrier, which is to be settled.
    Settling { content: C },
    /// The block was released in an employed carrier, which is to be abandoned.
    Abandoning { content: C },
    /// The carrier is empty, and is to be sent home to its owner.
    Sending { content: C },
    /// The carrier is empty and the scheduler's own, and is to be cleared.
    Clearing { content: C },
    /// A node is to be pushed to an instance's queue: the block's, or that of a carrier sent home.
    Pushing { node: Node, to: u32 },
    /// The node was pushed there, and is to be linked.
    Linking { node: Node, to: u32 },
}

/// Where a scheduler is in its operation, by the row that is next.
#[derive(Drop)]
pub enum Stage<C> {
    /// It takes its queue, or walks through it.
    Begin,
    /// A block is on its release route.
    Routed {
        route: Route<C>,
        why: Why,
        gone: Gone,
    },
    /// An empty carrier of its own came home, and is to be cleared.
    Collecting {
        number: u32,
    },
    /// It searches for a carrier, next at a number, in a part of the search.
    Searching {
        ask: Ask,
        at: u32,
        part: Part,
    },
    /// It saw a carrier in the pool that fits, and is to fetch it.
    Fetching {
        ask: Ask,
        at: u32,
        part: Part,
        seen: OwnerWord,
    },
    /// It is to create the carrier of a plan.
    Creating {
        ask: Ask,
        plan: CarrierPlan,
    },
    /// It is to give a name to a scheduler.
    Giving {
        given: Named,
        to: u32,
    },
    /// It is to take a name, with that many of its tries left.
    Taking {
        name: u32,
        tries: u32,
        left: u32,
    },
    /// Its text is done.
    Ended,
    /// The begin is over, and the operation itself follows in the same step: none rests here.
    Ready,
}
