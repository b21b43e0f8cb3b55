//! Words that are no node's number.

/// No node: the head word of an empty queue, the link word of a node that isn't linked or stands
/// nowhere, and the word of a name that isn't given.
pub const NO_NODE: u64 = 0;
/// The link word of a linked node that is the oldest of its list.
pub const OLDEST: u64 = 1;
