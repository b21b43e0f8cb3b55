//! The rule of the table, and what its steps tell: definitions that the kit's table asks for as
//! types. None has a value.

use crate::ledger::Ledger;
use crate::views::{About, View};
use atomic_table::{Join, Play, Split, TableRule};

/// The rule: the word is 0 where the ledger is at home, and one seat has the ledger else; the
/// history begins with what each scheduler has seen.
pub struct Locked;

impl TableRule<Ledger, View, About> for Locked {
    ghost use Rattle.ea_segments.specs.Ruling.{holds, first};

    ghost holds = { holds };

    ghost first = { first };
}

/// A try for the lock. Where it is won, the seat has the ledger.
pub struct Tries;

impl Play<Ledger, View> for Tries {
    ghost use Rattle.ea_segments.specs.Ruling.{tries};

    ghost then = { tries };
}

/// The ledger goes back, with one more call of the seat's scheduler.
pub struct Ends;

impl Play<Ledger, View> for Ends {
    ghost use Rattle.ea_segments.specs.Ruling.{ends};

    ghost then = { ends };
}

/// A seat is split off for the first scheduler of another one.
pub struct Deals;

impl Split<View> for Deals {
    ghost use Rattle.ea_segments.specs.Ruling.{dealt_left, dealt_right};

    ghost left = { dealt_left };

    ghost right = { dealt_right };
}

/// A seat takes in another one, with its schedulers.
pub struct TakesIn;

impl Join<View> for TakesIn {
    ghost use Rattle.ea_segments.specs.Ruling.{spent_view, taken_in};

    ghost both = { taken_in };

    ghost spent = { spent_view };
}
