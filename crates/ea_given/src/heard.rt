//! What a row will answer, read off what is shared before the step.
ghost use Rattle.std.specs.Prelude.{◌≡◌};
ghost use Rattle.ea_machine.specs.Owners.{CarrierAt, word_of};
ghost use Rattle.ea_machine.specs.Table.{answer, tried_at};
ghost use Rattle.ea_mem_shared.specs.Memory.{shared_of};
ghost use Rattle.ea_given.specs.Heard.{CanRead, IsPooledWord, given_told, heard_of, row_of};

use ea_machine::{Node, OwnerWord};
use ea_mbc::Mbc;
use ea_mem_shared::MemShared;
use ea_model::Spot;
use ea_sched::Wanted;
use ea_shared::{Link, Rested};

/// What a scheduler learns by a row, with what is told of it.
#[derive(Debug, Clone, Copy, PartialEq, Eq)]
pub enum Heard {
    /// That it is done.
    Done,
    /// The node that was newest in the queue.
    Head { node: Option<Node> },
    /// What the link of the walk's next node says.
    Read { link: Link },
    /// The owner word.
    Saw { word: OwnerWord },
    /// That the try was won.
    Won,
    /// That the try was lost: the present owner word.
    Lost { word: OwnerWord },
    /// That the name is given, and taken.
    Got,
    /// That the name isn't given.
    Absent,
}

/// What a try answers, by the present owner word.
fn tried(word: OwnerWord, seen: OwnerWord) -> Heard
    requires { IsPooledWord seen }
    ensures { (place : CarrierAt) → word ≡ word_of place → result ≡ heard_of (tried_at seen place) }
{
    if word != seen {
        return Heard::Lost { word };
    }
    Heard::Won
}

/// Whether a name is given.
fn taken(given: Option<Spot>) -> Heard
    ensures { result ≡ given_told given }
{
    match given {
        Some(_) => Heard::Got,
        None => Heard::Absent,
    }
}

/// What the row will answer that scheduler `me` wants.
pub(crate) fn answer_of(shared: &MemShared<Mbc>, me: u32, wanted: Wanted) -> Heard
    requires { CanRead shared.now me wanted }
    ensures { result ≡ heard_of (answer me (row_of wanted) (shared_of shared.now)) }
{
    match wanted {
        Wanted::TakeAll => Heard::Head {
            node: shared.newest(me),
        },
        Wanted::TakeLink { node } => Heard::Read {
            link: shared.link_of(node),
        },
        Wanted::Look { carrier, .. } => Heard::Saw {
            word: shared.word(carrier),
        },
        Wanted::BusyTry { carrier, seen } => tried(shared.word(carrier), seen),
        Wanted::FetchTry { carrier, seen } => tried(shared.word(carrier), seen),
        Wanted::TakeTry { name } => taken(shared.given(name)),
        Wanted::Push { .. }
        | Wanted::Link { .. }
        | Wanted::Settle { .. }
        | Wanted::Abandon { .. }
        | Wanted::Create { .. }
        | Wanted::SendHome { .. }
        | Wanted::Clear { .. }
        | Wanted::Give { .. }
        | Wanted::Nothing => Heard::Done,
    }
}
