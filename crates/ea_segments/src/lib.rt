//! One region of pages that all schedulers take segments of, under a lock.
//!
//! The region with its history is the `Ledger`. It lies in the one slot of a table with one word,
//! which is 0 or the number of the scheduler that has the ledger. Each scheduler has a `Pass`: it
//! takes the lock, makes one call on the ledger and gives the lock back. The rule of the table
//! (specs/Ruling) says that the history only grows, that each pass has seen a front of it, and that
//! the calls of each scheduler stand in it once each and in their order. That each reply is the one
//! that one thread gets is what the ledger says of itself.
#![tactic(auto)]

mod calls;
mod closing;
mod desk;
mod held;
mod ledger;
mod making;
mod pass;
mod playing;
mod rule;
mod views;

pub use calls::{Book, Call, Reply, Request, constants};
pub use closing::close;
pub use desk::Desk;
pub use making::{Start, make_passes};
pub use pass::Pass;
pub use playing::play;
