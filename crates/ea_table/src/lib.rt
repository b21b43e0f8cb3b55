//! Schedulers that run beside each other, each on a thread of its own, over one table of words that
//! change in atomic steps.
//!
//! The words code what schedulers share: the heads of the queues, a link for each node that may
//! stand in one, a word for each name that may be given, and the owner word of each carrier. The
//! content of a carrier that no scheduler has lies in the carrier's slot. Each scheduler has a seat
//! at the table, its `Pass`; `TableShared` is the table as the scheduler with that pass steps on
//! it. The rule of the table (specs/Ruling) says that after the steps that ran so far the words
//! code what is shared, that the slots have what is at home, and that each seat knows its scheduler
//! as it stands then. `run_threads` makes the seats, runs a `Worker` for each scheduler and gathers
//! what is printed.
#![tactic(auto)]

mod board;
mod carriers;
mod ending;
mod pass;
mod places;
mod rule;
mod seats;
mod shared;
mod threads;
mod views;
mod worker;

pub use board::Board;
pub use pass::Pass;
pub use rule::Ruled;
pub use seats::{Made, make_seats};
pub use shared::TableShared;
pub use threads::{gather_run, run_threads, workers_of};
pub use views::{About, Seated, View};
pub use worker::{Finished, Gate, OpenGate, Worker, Working};
