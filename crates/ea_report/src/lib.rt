//! Writes the output text of a run: the log of each scheduler, the carriers at its end, and the
//! totals; or, of a generated trace, how many entries each log has of each kind, and the totals.
#![tactic(auto)]

mod beside;
mod carriers;
mod entries;
mod lines;
mod summary;
mod tails;
mod text;

pub use beside::{print_beside, put_beside};
pub use carriers::{kind_word, put_carriers, put_totals};
pub use entries::put_log_from;
pub use lines::{Word, put_line, put_words};
pub use summary::print_summary;
pub use text::{print, put_outcome};
