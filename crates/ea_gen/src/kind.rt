//! What an operation does.
ghost use Rattle.std.specs.Prelude.{◌≡◌};
ghost use Rattle.ea_gen.specs.Generated.{kind_of};

use crate::numbers::DRAW_KINDS;

/// What an operation does, if there is a name for it.
#[derive(Clone, Copy)]
pub enum Kind {
    /// It allocates a name.
    Allocate,
    /// It frees the oldest name at hand.
    Free,
    /// It takes the first name that was given and has no take yet.
    Take,
    /// It gives the oldest own name at hand to the next scheduler.
    Give,
}

/// The kind that a draw tells.
pub fn drawn_kind(draw: u32) -> Kind
    ensures { result ≡ kind_of draw }
{
    match draw % DRAW_KINDS {
        0..=4 => Kind::Allocate,
        5 => Kind::Free,
        6 => Kind::Take,
        _ => Kind::Give,
    }
}
