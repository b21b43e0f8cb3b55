//! Segregated bins: the gaps of one allocator instance for good fit, best fit and address order
//! best fit. Best fit takes the smallest gap of all that fits. Under good fit each size below 64
//! units has a bin of its own, and from there on each size up to twice as much shares one: a search
//! inspects the first gaps of a bin only, by address, and takes the smallest of these that fits.
#![tactic(auto)]

pub mod bins;
pub mod fits;
pub mod gaps;
mod keys;

pub use bins::Bins;
pub use fits::Fit;
pub use gaps::BinnedGap;
