//! The top call in memory: a case's words and bytes in, its status, output and error line out; with
//! tests of ends that fail and of limits. Only the cases stand on it.
#![tactic(auto)]

pub mod case;
#[cfg(test)]
mod ends;
#[cfg(test)]
mod limits;

pub use case::{Case, NotRun, PLAIN, Ran, Streams, run_words, words_of};
