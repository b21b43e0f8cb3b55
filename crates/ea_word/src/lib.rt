//! Nodes of queues, and owner words of carriers, as numbers of 64 bits, for words that schedulers
//! share.
//!
//! | Bits | Of a block's number | Bits | Of a carrier's number |
//! |---|---|---|---|
//! | 0 and 1 | 2 | 0 and 1 | 3 |
//! | 2 to 21 | its name less one | 2 to 17 | the carrier's number less one |
//! | 22 to 37 | its carrier's number less one | 18 to 63 | 0 |
//! | 38 to 62 | half of its offset in units | | |
//! | 63 | 0 | | |
//!
//! So names of 1 to 2^20 have room, carrier numbers of 1 to 2^16, and even offsets below 2^26
//! units. Different nodes have different numbers, and a number gives its node back. The number 0 is
//! no node's, and 1 isn't either: they are the words of a queue without nodes, and of a list's
//! oldest node.
//!
//! | Bits | Of an owner word's number |
//! |---|---|
//! | 0 to 2 | 0 absent, 1 employed, 2 pooled, 3 busy, 4 returning |
//! | 3 to 12 | its instance less one, or 0 if absent |
//! | 13 to 43 | half of its largest gap in units if pooled, else 0 |
//! | 44 to 63 | 0 |
//!
//! So instances of 1 to 1,024 have room, and even largest gaps below 2^32 units. Different owner
//! words have different numbers, and a number gives its owner word back. A node may have the number
//! of an owner word: who reads a word knows which of them it is.
#![tactic(auto)]

mod nodes;
mod owners;
mod words;

pub use nodes::{decode_node, encode_node};
pub use owners::{
    BUSY_STATE, EMPLOYED_STATE, INSTANCE_SHIFT, LARGEST_SHIFT, MAX_CODED_INSTANCE, POOLED_STATE,
    RETURNING_STATE, STATES, decode, encode,
};
pub use words::{NO_NODE, OLDEST};
