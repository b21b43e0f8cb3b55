//! One allocator instance: the carriers that it owns with the pages of its region, and those that
//! it employs.
#![tactic(auto)]

mod held;
mod instance;
mod layouts;
mod lines;
mod own;

pub use held::Held;
pub use instance::Instance;
pub use layouts::{Layout, multi_layout};
pub use lines::multi_line;
