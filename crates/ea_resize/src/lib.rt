//! What a reallocation does with a block: whether it stays in its place, and with how much room.
#![tactic(auto)]

mod decision;

pub use decision::decide;
