//! What blocks contain: the words of names, and a memory that has them by address.
//!
//! The model has a list of words for each name, and no addresses. The memory has one word for each
//! unit of the super carrier. The law says that steps, writes and copies keep the words of each
//! block the list of its name.
//!
//! `specs/` say what an input with writes and reads asks for (`Language`), what its run comes to
//! (`Model`) and its text (`Text`); what a memory has (`Memory`, `Stored`) and what of it is there
//! (`Paging`), and when it agrees with the model (`Agreeing`); what a session tells, a run with its
//! memory (`Sessions`); and where a play stands, a run by turns of all kinds (`Placing`, `Entering`,
//! `Playing`).
#![tactic(auto)]

mod access;
mod accesses;
mod contents;
mod input;
mod laws;
mod lines;
mod memory;
mod page;
mod pages;
mod part;
mod playing;
mod reader;
mod session;
mod text;

pub use access::{Access, AccessEntry, Making};
pub use contents::run_contents;
pub use input::{ContentsInput, Placed};
pub use laws::{agreement, all_end};
pub use memory::Memory;
pub use playing::{ContentsOutcome, run_script};
pub use reader::read_contents;
pub use session::Session;
pub use text::print_contents;
