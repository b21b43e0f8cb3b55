//! How names are grouped.

/// The names of a group: names 0 to 511 are the first one, and so on.
pub const GROUP: u32 = 512;
