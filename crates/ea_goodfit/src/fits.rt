//! How a gap is chosen.

/// Which of the gaps that fit is taken.
#[derive(Debug, Clone, Copy, PartialEq, Eq)]
pub enum Fit {
    /// The smallest of those that are inspected, which are the first of each bin by address, and of
    /// equals the lowest.
    Good,
    /// The smallest of all, and of equals the highest.
    Best,
    /// The smallest of all, and of equals the lowest.
    AddressOrderBest,
}
