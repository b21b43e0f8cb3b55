//! Tests of what schedulers share (names, words, rows in plain memory, one region), of their searches,
//! and of schedulers that run beside each other. Nobody stands on this crate.
#![tactic(auto)]

#[cfg(test)]
mod meeting;
#[cfg(test)]
mod names;
#[cfg(test)]
mod region;
#[cfg(test)]
mod searches;
#[cfg(test)]
mod shared;
#[cfg(test)]
mod threads;
#[cfg(test)]
mod words;
