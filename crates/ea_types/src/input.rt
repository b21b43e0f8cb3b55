//! An input with several types.
ghost use Rattle.std.specs.Prelude.{◌≡◌};

use ea_model::{Letter, List, Trace};

/// How many types an input has at most.
pub const MAX_TYPES: usize = 8;

/// The value of the constant, so that another value is refused.
pub fn constants()
    ensures types { MAX_TYPES ≡ 8 }
{}

/// An input with several types, as it was read.
#[derive(Drop)]
pub struct TypedInput {
    /// The types, 1 to `MAX_TYPES`, in the order of the `types` line.
    pub letters: List<Letter>,
    /// The trace of each type. All have the same mode.
    pub traces: List<Trace>,
    /// Whose each line of each scheduler is, scheduler 1's first: the place of its type among the
    /// letters, from 0.
    pub parts: List<List<u8>>,
}
