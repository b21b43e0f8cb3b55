//! The rule of the table, and what its steps tell: definitions that the kit's table asks for as
//! types. None has a value.

use crate::views::{About, View};
use atomic_table::{Join, Play, Split, TableRule};
use ea_mbc::Mbc;

/// The rule: the words code what is shared, the slots have the contents that are at home, and each
/// seat knows its scheduler.
pub struct Ruled;

impl<'t> TableRule<Option<Mbc>, View, About<'t>> for Ruled {
    ghost use Rattle.ea_table.specs.Ruling.{holds, first};

    ghost holds = { holds };

    ghost first = { first };
}

/// A step of a scheduler, which its seat knows afterwards.
pub struct Steps;

impl Play<Option<Mbc>, View> for Steps {
    ghost use Rattle.ea_table.specs.Ruling.{steps};

    ghost then = { steps };
}

/// A look of a seat, by which it claims the empty slot of a carrier that its scheduler has.
pub struct Claims;

impl Play<Option<Mbc>, View> for Claims {
    ghost use Rattle.ea_table.specs.Ruling.{claims};

    ghost then = { claims };
}

/// A look of a seat, by which it gives back the slot that it has claimed, which is empty.
pub struct Yields;

impl Play<Option<Mbc>, View> for Yields {
    ghost use Rattle.ea_table.specs.Ruling.{yields};

    ghost then = { yields };
}

/// A seat is split off for the first scheduler of another one.
pub struct Deal;

impl Split<View> for Deal {
    ghost use Rattle.ea_table.specs.Ruling.{dealt_left, dealt_right};

    ghost left = { dealt_left };

    ghost right = { dealt_right };
}

/// A seat takes in another one, with its schedulers.
pub struct TakesIn;

impl Join<View> for TakesIn {
    ghost use Rattle.ea_table.specs.Ruling.{taken_in, spent_view};

    ghost both = { taken_in };

    ghost spent = { spent_view };
}
