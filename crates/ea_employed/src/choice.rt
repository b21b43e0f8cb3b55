//! What a search among an instance's carriers finds.

use ea_model::Candidate;

/// A gap, and where its carrier stands among the carriers.
#[derive(Clone, Copy)]
pub struct Choice {
    /// The carrier's index.
    pub index: usize,
    pub candidate: Candidate,
}
