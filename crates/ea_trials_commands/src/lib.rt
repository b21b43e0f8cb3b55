//! The commands beside a run of one trace, each by itself: worked inputs, from which the definitions
//! alone compute what was worked out by hand, tables of inputs for readers, and whole runs. All of it
//! is under `cfg(test)`, and so is proved once; what is worked is `pub`, or no proof would ask for it.
#![tactic(auto)]

#[cfg(test)]
pub mod contents;
#[cfg(test)]
pub mod histograms;
#[cfg(test)]
pub mod recorded;
#[cfg(test)]
pub mod segments;
#[cfg(test)]
pub mod types;
