//! The parts of an input.

/// The part of an input that has been reached.
#[derive(Debug, Clone, Copy, PartialEq, Eq)]
pub enum Stage {
    /// Before the `super` line.
    Start,
    /// The sections.
    Opening,
    /// After `end`.
    Ended,
}
