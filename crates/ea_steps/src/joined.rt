//! Which steps in a row one line tells.
ghost use Rattle.std.specs.Prelude.{◌≡◌};
ghost use Rattle.ea_steps.specs.Groups as groups;

/// Which steps one line may tell.
#[derive(Debug, Clone, Copy, PartialEq, Eq)]
pub enum Joined {
    /// None but itself.
    Apart,
    /// Looks of the last part of a search whose words don't count: it looks at that carrier.
    Looks { carrier: u32 },
    /// Tries to take that name, which isn't given.
    Tries { name: u32 },
}

/// Whether one line may tell both: looks, or tries of one `take`.
pub(crate) fn are_alike(step: Joined, next: Joined) -> bool
    ensures { result ≡ groups.are_alike step next }
{
    match step {
        Joined::Looks { .. } => matches!(next, Joined::Looks { .. }),
        Joined::Tries { name } => match next {
            Joined::Tries { name: other } => name == other,
            Joined::Looks { .. } | Joined::Apart => false,
        },
        Joined::Apart => false,
    }
}
