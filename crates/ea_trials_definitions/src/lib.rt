//! The definitions on worked inputs, from which they compute what was worked out by hand: the flags,
//! traces, decisions of a reallocation, the machine's texts and moments, and what a sound state
//! counts. It stands on no scheduler's code, so that a definition that changes is tried here first.
#![tactic(auto)]

pub mod decisions;
pub mod flags;
pub mod machine;
pub mod moments;
pub mod soundness;
pub mod traces;
