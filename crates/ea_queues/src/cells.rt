//! What is kept of each node that may stand in a queue.
ghost use Rattle.std.specs.Prelude.{◌≡◌, ◌+◌, ◌*◌, ◌<◌, IfOk, if◌then◌else◌, length};
ghost use Rattle.ea_machine.specs.declared.nodes.Node.{Node as AnyNode};
ghost use Rattle.ea_model.specs.declared.units.TheConstants.{NUMBERS};
ghost use Rattle.ea_machine.specs.Alike.{are_alike};
ghost use Rattle.ea_queues.specs.Chains.{blank, cell_at, count_of, number_of};

use ea_machine::Node;
use ea_model::{NUMBERS, OutOfMemory};
use std::alloc::Global;

/// What is kept of a node: the next older one, and whether the node is linked to it.
#[derive(Debug, Clone, Copy, PartialEq, Eq)]
pub struct Cell {
    pub older: Option<Node>,
    pub linked: bool,
}

/// A cell for each block name and for each carrier number, both from 0 on.
#[derive(Drop)]
pub struct Cells {
    pub names: Vec<Cell>,
    pub carriers: Vec<Cell>,
}

impl Cells {
    /// Cells for names up to `greatest`, and for the carriers of that many instances.
    pub fn new(alloc: Global, schedulers: u32, greatest: u32) -> Result<Cells, OutOfMemory>
        ensures names { IfOk result (λ c. length c.names.items ≡ greatest + 1) }
        ensures carriers { IfOk result (λ c. length c.carriers.items ≡ NUMBERS * schedulers + 1) }
    {
        let blank = Cell {
            older: None,
            linked: false,
        };
        let names = vec![in alloc; blank; greatest as usize + 1]?;
        let carriers = vec![in alloc; blank; NUMBERS as usize * schedulers as usize + 1]?;
        Ok(Cells { names, carriers })
    }

    /// The cell of the node.
    pub fn at(&self, node: Node) -> Cell
        requires { number_of node
            < count_of (length self.now.names.items) (length self.now.carriers.items) node }
        ensures { result ≡ cell_at self.now.names.items self.now.carriers.items node }
    {
        match node {
            Node::Block { name, .. } => self.names[name as usize],
            Node::Carrier { number } => self.carriers[number as usize],
        }
    }

    /// Puts the cell at the node.
    pub fn put(&mut self, node: Node, cell: Cell)
        requires { number_of node
            < count_of (length self.old.names.items) (length self.old.carriers.items) node }
        ensures cells { (x : AnyNode) → cell_at self.new.names.items self.new.carriers.items x
            ≡ (if are_alike node x then cell else cell_at self.old.names.items
            self.old.carriers.items x) }
        ensures names { length self.new.names.items ≡ length self.old.names.items }
        ensures carriers { length self.new.carriers.items ≡ length self.old.carriers.items }
    {
        match node {
            Node::Block { name, .. } => self.names[name as usize] = cell,
            Node::Carrier { number } => self.carriers[number as usize] = cell,
        }
    }
}
