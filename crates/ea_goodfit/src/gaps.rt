//! A gap of a multiblock carrier.

use ea_model::keyed::Keyed;

/// A maximal run of free units of 8 bytes. No two gaps have the same address.
#[derive(Debug, Clone, Copy, PartialEq, Eq)]
pub struct BinnedGap {
    /// Its first unit.
    pub address: u32,
    /// Its units.
    pub size: u32,
}

impl Keyed for BinnedGap {
    ghost key_of = { λ g. g.address };

    fn key(&self) -> u32 {
        self.address
    }
}
