//! How a gap is found: steps with known answers, or many steps beside plain walks, in the trees and
//! the bins. The choice of a gap stands here once more, by walks over whole lists: slow, with no
//! index and nothing kept from one choice to the next. An instance is compared with it, under each
//! strategy. Choices that were worked out by hand are cases of the program.
#![tactic(auto)]

#[cfg(test)]
mod against_plain;
#[cfg(test)]
mod goodfit;
#[cfg(test)]
mod keytree;
pub mod plain;
#[cfg(test)]
mod postree;
#[cfg(test)]
mod sizemap;

pub use plain::{NoChoice, choice};
