//! What begins at an offset of a carrier.

/// A block or a gap, with its units.
#[derive(Debug, Clone, Copy, PartialEq, Eq)]
pub enum Part {
    Block { size: u32 },
    Gap { size: u32 },
}
