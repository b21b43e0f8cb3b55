//! What schedulers share of a carrier.

/// A carrier's owner word. Instances are numbered from 1, and `largest` is in units.
#[derive(Debug, Clone, Copy, PartialEq, Eq)]
pub enum OwnerWord {
    /// No carrier has the number.
    Absent,
    /// The instance allocates in the carrier.
    Employed { instance: u32 },
    /// The instance abandoned the carrier into the pool, and releases its blocks; `largest` is its
    /// largest gap.
    Pooled { instance: u32, largest: u32 },
    /// The instance is releasing a block of the pooled carrier.
    Busy { instance: u32 },
    /// The carrier is empty, and on its way to the instance, which created it.
    Returning { instance: u32 },
}
