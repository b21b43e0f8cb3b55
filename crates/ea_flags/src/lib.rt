//! Reads emulator flags (`+S 4 +MHas aoffcbf ..`): the configuration that the words ask for, or the
//! first of them that is refused.
#![tactic(auto)]

mod config;
mod fault;
mod flag;
mod reading;
mod setting;
mod value;

pub use config::{DEFAULT_CONFIG, DEFAULT_SETTINGS};
pub use fault::FlagFault;
pub use reading::read_flags;
