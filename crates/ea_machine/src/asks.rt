//! Requests for a place.

use crate::nodes::Named;

/// A block of `need` units is to be placed under a name; for a reallocation that moves, with the
/// old name and where its block lies.
#[derive(Debug, Clone, Copy, PartialEq, Eq)]
pub struct Ask {
    pub name: u32,
    pub need: u32,
    pub old: Option<Named>,
}
