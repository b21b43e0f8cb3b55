//! The lines that take a name.

/// A line that takes a name, from 1, and the scheduler in whose section it stands.
#[derive(Debug, Clone, Copy, PartialEq, Eq)]
pub struct TakeLine {
    pub line: u32,
    pub name: u32,
    pub scheduler: u32,
}
