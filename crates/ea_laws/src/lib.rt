//! Laws that follow from the definitions alone: of carriers, gaps, choices, regions and instances.
//! There is no code here; each law is a clause of a function that does nothing, so that the check
//! asks for its proof.
#![tactic(auto)]

pub mod choices;
pub mod instances;
