//! What a walk learns of its next node.

use ea_machine::Node;

/// What a walk learns when it reads the link of its next node.
#[derive(Debug, Clone, Copy, PartialEq, Eq)]
pub enum Link {
    /// The node isn't linked yet, and the walk rests.
    Rest,
    /// The node is passed, and no node is left.
    End,
    /// The node is passed, and this one is next.
    Next { node: Node },
}
