//! Tests of what is read and printed where a case would be too long, and worked texts of generated
//! traces. All of it is under `cfg(test)`, and so is proved once.
#![tactic(auto)]

#[cfg(test)]
mod flags;
#[cfg(test)]
pub mod generated;
#[cfg(test)]
mod report;
#[cfg(test)]
mod traces;
