//! Trees of positions by their keys. A tree is over a number of keys from some key on. The trees
//! below its root are over the lower and over the upper half of these, so that a tree over 2^64
//! keys is at most 65 nodes deep, whatever is put in. A link to a tree is the position of its
//! root + 1, or 0 where it is empty.
ghost use Rattle.std.specs.Prelude.{◌≡◌, ◌≢◌, ℕ, ◌+◌, ◌^◌, ◌<◌, ◌⊎◌, length};
ghost use Rattle.ea_keytree.specs.Trees.{Tree, Has, Becomes, MayPut, MayTake, MayRaise};

/// A position's key, and the links to the trees below it.
#[derive(Debug, Clone, Copy)]
pub struct Node {
    /// The key that the position holds, or u64::MAX, which is above every key.
    pub key: u64,
    /// The link to the tree over the lower half of the keys.
    pub low: u32,
    /// The link to the tree over the upper half of the keys.
    pub high: u32,
}

/// What was taken out of a tree.
#[derive(Debug, Clone, Copy)]
pub struct Taken {
    /// The position that held the key.
    pub position: u32,
    /// The link to the tree of the others.
    pub link: u32,
}

/// Puts the position of that key into the tree at the link, and answers the tree's link.
pub fn put_in(nodes: &mut [Node], link: u32, from: u64, width: u64, key: u64, position: u32) -> u32
    requires few { length nodes.old < 2 ^ 32 }
    requires end { from + width < 2 ^ 64 }
    requires may { (keys : ℕ → ℕ) × ((t : Tree)
        × MayPut keys nodes.old link from width key position t) }
    ensures { (keys : ℕ → ℕ) (t : Tree) → MayPut keys nodes.old link from width key position t
        → Becomes keys nodes.old nodes.new t result from width
        (λ q. (q ≡ position) ⊎ Has q t) }
{
    if link == 0 {
        return position + 1;
    }
    let at = (link - 1) as usize;
    let node = nodes[at];
    let half = width / 2;
    if key < from + half {
        let low = put_in(nodes, node.low, from, half, key, position);
        nodes[at].low = low;
        return link;
    }
    let high = put_in(nodes, node.high, from + half, width - half, key, position);
    nodes[at].high = high;
    link
}

/// Takes the root out of the tree at the link, which is over that many keys, and answers the link
/// to the tree of the others.
pub fn raise(nodes: &mut [Node], link: u32, width: u64) -> u32
    requires { (keys : ℕ → ℕ) × ((from : ℕ) × ((t : Tree)
        × MayRaise keys nodes.old link from width t)) }
    ensures { (keys : ℕ → ℕ) (from : ℕ) (t : Tree) → MayRaise keys nodes.old link from width t
        → Becomes keys nodes.old nodes.new t result from width
        (λ q. Has q t × (q + 1 ≢ link)) }
{
    let node = nodes[(link - 1) as usize];
    let half = width / 2;
    if node.low != 0 {
        let low = raise(nodes, node.low, half);
        let root = &mut nodes[(node.low - 1) as usize];
        root.low = low;
        root.high = node.high;
        return node.low;
    }
    if node.high != 0 {
        let high = raise(nodes, node.high, width - half);
        let root = &mut nodes[(node.high - 1) as usize];
        root.low = 0;
        root.high = high;
        return node.high;
    }
    0
}

/// Takes the key out of the tree at the link, which has it.
pub fn take_out(nodes: &mut [Node], link: u32, from: u64, width: u64, key: u64) -> Taken
    requires end { from + width < 2 ^ 64 }
    requires may { (keys : ℕ → ℕ) × ((t : Tree)
        × MayTake keys nodes.old link from width key t) }
    ensures tree { (keys : ℕ → ℕ) (t : Tree) → MayTake keys nodes.old link from width key t
        → Becomes keys nodes.old nodes.new t result.link from width
        (λ q. Has q t × (keys q ≢ key)) }
    ensures position { (keys : ℕ → ℕ) (t : Tree) → MayTake keys nodes.old link from width key t
        → Has result.position t × (keys result.position ≡ key) }
{
    let at = (link - 1) as usize;
    let node = nodes[at];
    if node.key == key {
        return Taken {
            position: link - 1,
            link: raise(nodes, link, width),
        };
    }
    let half = width / 2;
    if key < from + half {
        let taken = take_out(nodes, node.low, from, half, key);
        nodes[at].low = taken.link;
        return Taken {
            position: taken.position,
            link,
        };
    }
    let taken = take_out(nodes, node.high, from + half, width - half, key);
    nodes[at].high = taken.link;
    Taken {
        position: taken.position,
        link,
    }
}
