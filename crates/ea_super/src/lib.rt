//! Schedulers that share one region under a lock: the language of `super` inputs, their reader, the
//! text of a book, and the command that plays the sections of an input and writes what came of it.
#![tactic(auto)]

mod command;
mod gathering;
mod judging;
mod lines;
mod part;
mod reader;
mod seen;
mod stages;
mod takers;
mod text;

pub use command::run_super;
pub use lines::{Line, read_line};
pub use reader::read_sections;
pub use text::print_book;
