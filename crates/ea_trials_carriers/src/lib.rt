//! A multiblock carrier beside the plain list of its blocks, which is slow and has nothing beside
//! the list; and the words of headers. All else about carriers and their pages is shown by cases of
//! the program.
#![tactic(auto)]

#[cfg(test)]
mod against_plain;
#[cfg(test)]
mod carrier_tags;
pub mod plain;
#[cfg(test)]
mod tags;

pub use plain::PlainCarrier;
