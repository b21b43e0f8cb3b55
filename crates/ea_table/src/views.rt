//! What seats know: plain data that stands in proofs alone. No value of a view is made.

use ea_model::{Config, Trace};
use std::collections::LinkedList;

/// A scheduler as its seat knows it: as it stands after these turns, of which its own last one is
/// the last. Where it is about to link a node, `older` is the word that goes into the link. `claim`
/// is the carrier whose slot it has claimed, or 0.
pub struct Seated {
    pub number: u32,
    pub turns: LinkedList<u32>,
    pub older: u64,
    pub claim: u32,
}

/// What a seat knows: the run, and its schedulers. A seat that another one took in is spent: it is
/// no longer live, and knows nothing.
pub struct View {
    pub config: Config,
    pub trace: Trace,
    pub live: bool,
    pub seated: LinkedList<Seated>,
}

/// The run for which a table was made.
#[derive(Clone, Copy)]
pub struct About<'t> {
    pub config: Config,
    pub trace: &'t Trace,
}
