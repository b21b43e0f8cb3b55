//! Blocks with the numbers of their carriers.

use ea_model::BlockAt;

/// A block with the number of its carrier.
#[derive(Debug, Clone, Copy, PartialEq, Eq)]
pub struct PlacedBlock {
    pub carrier: u32,
    pub block: BlockAt,
}
