//! Names with the spots of their blocks, and what stands in an instance's queue.

use ea_model::Spot;

/// A name, 1 to `MAX_NAME`, and where its block begins.
#[derive(Debug, Clone, Copy, PartialEq, Eq)]
pub struct Named {
    pub name: u32,
    pub spot: Spot,
}

/// A node of a queue. Names are 1 to `MAX_NAME`, and carrier numbers 1 to
/// `NUMBERS * MAX_SCHEDULERS`.
#[derive(Debug, Clone, Copy, PartialEq, Eq)]
pub enum Node {
    /// A block that the instance is to release.
    Block { name: u32, spot: Spot },
    /// An empty carrier of the instance's own that it is to deallocate.
    Carrier { number: u32 },
}
