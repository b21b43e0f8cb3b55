//! A singleblock carrier: one block behind the header, and a tail that stays free.
#![tactic(auto)]

mod carrier;

pub use carrier::Sbc;
