//! The turns of a line together.

/// What the turns of a line are together.
#[derive(Debug, Clone, Copy, PartialEq, Eq)]
pub struct Tally {
    /// How many turns they are, `MAX_READ` at most.
    pub count: u32,
    /// Whether some are of no scheduler.
    pub outside: bool,
}
