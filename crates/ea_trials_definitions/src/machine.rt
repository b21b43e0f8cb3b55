//! Worked words and inputs with their outputs, computed from the definitions of the machine alone:
//! what shows that they mean what was worked out by hand, before a law or a body stands on them.

pub mod limits;
pub mod node_rules;
pub mod one;
pub mod owns;
pub mod pools;
pub mod queues;
pub mod reports;
pub mod resizing;
pub mod stops;
