//! Several allocator types in one run: each has its own instances, its own pool and its own trace,
//! and each scheduler goes through its lines type by type.
#![tactic(auto)]

mod at_work;
mod columns;
mod given;
mod input;
mod laws;
mod letters;
mod output;
mod part;
mod reader;
mod sections;
mod sorting;
mod threads;
mod type_reader;
mod types;

pub use input::{MAX_TYPES, TypedInput, constants};
pub use laws::{all_end, own_runs};
pub use reader::read_types;
pub use threads::run_typed_threads;
pub use types::run_types;
