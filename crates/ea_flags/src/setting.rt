//! What a flag with its value sets.
use crate::flag::Scope;
use ea_model::Strategy;

/// A change of one allocator's settings, under the name of its flag. Sizes are in units.
#[derive(Clone, Copy)]
pub enum Change {
    As(Strategy),
    Acul(u32),
    Acfml(u32),
    Sbct(u32),
    Smbcs(u32),
    Lmbcs(u32),
    Mmbcs(u32),
    Asbcst(u32),
    Mbcgs(u32),
    Mbsd(u32),
    Rsbcmt(u32),
    Rmbcmt(u32),
    Rsbcst(u32),
    Ramv(bool),
    /// What holds anyway.
    Nothing,
}

/// What a flag with its value sets.
#[derive(Clone, Copy)]
pub enum Setting {
    /// The number of schedulers.
    Schedulers(u32),
    /// The megabytes of the super carrier.
    SuperCarrier(u32),
    /// A change of the settings of one allocator, or of all.
    Of { scope: Scope, change: Change },
    /// What holds anyway.
    Nothing,
}

/// Why a value is refused.
#[derive(Clone, Copy)]
pub enum ValueFault {
    /// It is no value of its flag.
    Bad,
    /// It is one that isn't simulated.
    Unsupported,
}
