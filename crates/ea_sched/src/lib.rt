//! Schedulers: an operation as atomic steps.
#![tactic(auto)]

mod brought;
mod hands;
mod migration;
mod operations;
mod passed;
mod placements;
mod releases;
mod route_rows;
mod route_steps;
mod routes;
mod rows;
mod scheduler;
mod searches;
mod state;
mod step;
mod stops;
mod walks;
mod wants;

pub use migration::migrates;
pub use passed::Passed;
pub use state::Scheduler;
pub use wants::Wanted;
