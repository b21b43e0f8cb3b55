//! The machine of atomic steps: what schedulers do to what they share, one step at a time. It is
//! the protocol of blocks that another scheduler frees than the one that allocated them, and of
//! carriers that are abandoned into a pool and fetched from it.
//!
//! There is no code here but ten types, each in its module. The machine is defined in `specs/`,
//! which read as its manual, in this order:
//!
//! - `Setup` is what stays the same in a run; `Owners` and `Nodes` are what is shared of a carrier
//!   and of a queue, `Words` and `Alike` say what words can show and which nodes are those of one
//!   name, and `Shared` is all that is shared; `Lists` are the numbers of own carriers that an
//!   instance doesn't employ, `Actor` is one scheduler, `State` is all of them with what they
//!   share.
//! - `Rows` names the atomic steps, `Table` says what each of them answers and does, and `Guards`
//!   what holds whenever one is wanted.
//! - What a scheduler does between two steps is its own affair: `Walks` begins an operation,
//!   `Operations` has each of the seven, `Placements`, `Reallocations` and `Releases` what becomes
//!   of a block, `Searches` in which order a search looks at carriers, `Tasks` how an operation
//!   ends, and `Statistics` its figures. When a carrier is abandoned, and how carriers come to an
//!   instance and leave it, are `Abandonment` and `Employment` of ea_model.
//! - `Machine` puts them together: a scheduler wants a row, the row is answered, the scheduler goes
//!   on. A run is a list of scheduler numbers, one for each step.
//! - `Stops` says which turns a scheduler that stops takes, `Completion` adds those until every
//!   scheduler has ended or is stopped, `Courses` has the lists of turns that runs may be, and
//!   `Outcome` is what is printed.
//! - `Sums` are sums over lists and over what is numbered.
//!
//! When a state is sound, and what holds of each run, is said and proved in ea_sound.
#![tactic(auto)]

pub mod asks;
pub mod nodes;
pub mod owners;
pub mod parts;
pub mod stages;
pub mod tasks;

pub use asks::Ask;
pub use nodes::{Named, Node};
pub use owners::OwnerWord;
pub use parts::Part;
pub use stages::{Route, Stage};
pub use tasks::{Gone, Task, Why};
