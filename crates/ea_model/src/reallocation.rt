//! What a reallocation decides about a block.

/// Where a block lies.
#[derive(Debug, Clone, Copy, PartialEq, Eq)]
pub enum Where {
    /// In a carrier that the instance doesn't employ.
    Foreign,
    /// In a multiblock carrier, with a gap of `behind` units directly behind it, 0 for none.
    Multi { behind: u32 },
    /// In a singleblock carrier of that many units.
    Single { units: u32 },
}

/// What a reallocation decides.
#[derive(Debug, Clone, Copy, PartialEq, Eq)]
pub enum Decision {
    /// The block stays, with the units that it has.
    Stay,
    /// It stays, with fewer units.
    ShrinkHere,
    /// It stays, with more units.
    GrowHere,
    /// It stays, with fewer units, and its singleblock carrier has that many pages from now on.
    ShrinkCarrier { pages: u32 },
    /// It is allocated anew and then freed.
    Move,
}
