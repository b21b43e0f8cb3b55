//! The numbers of nodes.
ghost use Rattle.std.specs.Prelude.{◌≡◌, Some, IfSome};
ghost use Rattle.ea_machine.specs.declared.nodes.Node as declared;
ghost use Rattle.ea_word.specs.Codes.{IsCodable, code_of};

use ea_machine::Node;
use ea_model::Spot;

/// How many kinds the lowest two bits tell apart.
pub const KINDS: u64 = 4;
/// The kind of a block's number.
pub const BLOCK_KIND: u64 = 2;
/// The kind of a carrier's number.
pub const CARRIER_KIND: u64 = 3;
/// The bit where a block's name and a carrier's number begin, each less one.
pub const NAME_SHIFT: u32 = 2;
/// The bit where the number of a block's carrier begins, less one.
pub const CARRIER_SHIFT: u32 = 22;
/// The bit where half of a block's offset begins.
pub const OFFSET_SHIFT: u32 = 38;
/// The greatest name that has room, in 20 bits; names begin at 1.
pub const MAX_CODED_NAME: u32 = 1 << 20;
/// The greatest carrier number that has room, in 16 bits; carrier numbers begin at 1.
pub const MAX_CODED_CARRIER: u32 = 1 << 16;
/// An offset has room if it is even and below this many units, so that its half has 25 bits.
pub const CODED_UNITS: u32 = 1 << 26;

/// The number of a node. It takes no memory.
pub fn encode_node(node: Node) -> u64
    requires { IsCodable node }
    ensures { result ≡ code_of node }
{
    match node {
        Node::Block { name, spot } => {
            BLOCK_KIND
                + (u64::from(name - 1) << NAME_SHIFT)
                + (u64::from(spot.carrier - 1) << CARRIER_SHIFT)
                + (u64::from(spot.offset / 2) << OFFSET_SHIFT)
        }
        Node::Carrier { number } => CARRIER_KIND + (u64::from(number - 1) << NAME_SHIFT),
    }
}

/// The node with that number, or None exactly when no node has it. It takes no memory.
pub fn decode_node(bits: u64) -> Option<Node>
    ensures coded { (node : declared.Node) → IsCodable node → bits ≡ code_of node
        → result ≡ Some node }
    ensures only { IfSome result (λ node. IsCodable node × (bits ≡ code_of node)) }
{
    let kind = bits % KINDS;
    let named = bits >> NAME_SHIFT;
    let half = bits >> OFFSET_SHIFT;
    if kind == BLOCK_KIND && half < u64::from(CODED_UNITS / 2) {
        return Some(Node::Block {
            name: (named % u64::from(MAX_CODED_NAME)) as u32 + 1,
            spot: Spot {
                carrier: ((bits >> CARRIER_SHIFT) % u64::from(MAX_CODED_CARRIER)) as u32 + 1,
                offset: half as u32 * 2,
            },
        });
    }
    if kind == CARRIER_KIND && named < u64::from(MAX_CODED_CARRIER) {
        return Some(Node::Carrier {
            number: named as u32 + 1,
        });
    }
    None
}
