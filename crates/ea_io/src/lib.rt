//! Where the program's bytes come from and where they go: traits for both, with a count of faults,
//! the standard reader and writer, and the calls that read to the end and write whole texts.
#![tactic(auto)]

mod ends;
mod reading;
mod standard;
mod text;
mod writing;

pub use ends::{Failed, Sink, Source};
pub use reading::{ReadAllFault, read_all};
pub use standard::{StdSink, StdSource};
pub use text::{put_number, put_text};
pub use writing::{write_all, write_texts};
