//! The nodes that a walk passed.
ghost use Rattle.std.specs.Prelude.{◌≡◌, ◌+◌, ◌*◌, ◌<◌, [], ◌∷◌, IfOk, MatchOption, length};
ghost use Rattle.std.specs.Prelude.{reverse};
ghost use Rattle.ea_model.specs.declared.units.TheConstants.{MAX_NAME, MAX_SCHEDULERS, NUMBERS};

use ea_machine::Node;
use ea_model::{MAX_NAME, MAX_SCHEDULERS, NUMBERS, OutOfMemory};
use std::alloc::Global;
use std::marker::Model;

/// The nodes that a walk passed, which are to be worked off. There is room for a node of each name
/// and of each carrier number that a run may have. Contracts see the nodes oldest first.
#[derive(Drop)]
pub struct Passed {
    newest_first: Vec<Node>,
}

impl Model for Passed {
    ghost use Rattle.std.specs.Prelude.{◌+◌, ◌*◌, ◌≤◌, reverse, vec_capacity};
    ghost use Rattle.ea_model.specs.declared.units.TheConstants.{MAX_NAME, MAX_SCHEDULERS};
    ghost use Rattle.ea_model.specs.declared.units.TheConstants.{NUMBERS};
    ghost use Rattle.ea_sched.specs.Passing.{Passing};

    ghost Value = { Passing };

    ghost view = { λ p. record { nodes = reverse p.newest_first.items } };

    ghost invariant = { λ p. MAX_NAME + NUMBERS * MAX_SCHEDULERS ≤ vec_capacity p.newest_first };
}

impl Passed {
    /// No nodes. It takes the memory for all that a walk may pass.
    pub fn new(alloc: Global) -> Result<Passed, OutOfMemory>
        ensures { IfOk result (λ passed. passed.nodes ≡ []) }
    {
        let most = MAX_NAME as usize + NUMBERS as usize * MAX_SCHEDULERS as usize;
        Ok(Passed {
            newest_first: Vec::with_capacity(alloc, most)?,
        })
    }

    /// Adds the node, which is older than the others. It takes no memory.
    pub fn add(&mut self, node: Node)
        requires { length self.old.nodes < MAX_NAME + NUMBERS * MAX_SCHEDULERS }
        ensures { self.new.nodes ≡ node ∷ self.old.nodes }
    {
        self.newest_first.push_reserved(node);
    }

    /// Takes the oldest node away; None exactly where there is none.
    pub fn take_oldest(&mut self) -> Option<Node>
        ensures { MatchOption result ((self.old.nodes ≡ []) × (self.new.nodes ≡ []))
            (λ node. self.old.nodes ≡ node ∷ self.new.nodes) }
    {
        self.newest_first.pop()
    }

    /// The nodes, newest first.
    pub fn newest_first(&self) -> &[Node]
        ensures { reverse result.now ≡ self.now.nodes }
    {
        self.newest_first.as_slice()
    }
}
