//! Worked texts of the trace language, computed from its definition alone.

pub mod accepted;
pub mod refused;
