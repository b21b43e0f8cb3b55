//! Searches for the least and for the greatest key of a tree.
ghost use Rattle.std.specs.Prelude.{◌≡◌, ◌+◌, ◌^◌, ◌<◌, ◌≤◌, ◌⊎◌};
ghost use Rattle.ea_keytree.specs.Trees.{Tree, IsTree, key_at, IsLeast, IsGreatest};
ghost use Rattle.ea_keytree.specs.Trees.{IsLesser, IsGreater};

use crate::nodes::Node;
use crate::tree::Found;

/// Above every key.
pub const ABOVE: u64 = u64::MAX;

/// The position of a key, and the number after the key, or 0 where there is no key yet.
#[derive(Debug, Clone, Copy)]
pub struct Reached {
    pub after: u64,
    pub position: u32,
}

/// The lesser of the best key so far and a position's key, if that is at least `bound`.
fn lesser(best: Found, key: u64, position: u32, bound: u64) -> Found
    ensures { IsLesser bound key position best result }
{
    if key < bound {
        return best;
    }
    if best.key <= key {
        return best;
    }
    Found { key, position }
}

/// The greater of the best key so far and a position's key, if that is at most `bound`.
fn greater(best: Reached, key: u64, position: u32, bound: u64) -> Reached
    requires { key + 1 < 2 ^ 64 }
    ensures { IsGreater bound key position best result }
{
    if bound < key {
        return best;
    }
    if key < best.after {
        return best;
    }
    Reached {
        after: key + 1,
        position,
    }
}

/// The least key of at least `bound` in the tree at the link, or `best` where that is less.
#[cycle(first)]
pub fn first_from(
    nodes: &[Node],
    link: u32,
    from: u64,
    width: u64,
    bound: u64,
    best: Found,
) -> Found
    requires end { from + width < 2 ^ 64 }
    requires tree { (t : Tree) × IsTree (key_at nodes.now) nodes.now link from width t }
    ensures { (t : Tree) → IsTree (key_at nodes.now) nodes.now link from width t
        → IsLeast (key_at nodes.now) bound t best result }
{
    if link == 0 {
        return best;
    }
    if from + width <= bound {
        return best;
    }
    first_below(nodes, link, from, width, bound, best)
}

/// The same where the tree isn't empty. It stands apart, so that an empty one costs no call.
#[cycle(first)]
#[inline(never)]
fn first_below(nodes: &[Node], link: u32, from: u64, width: u64, bound: u64, best: Found) -> Found
    requires some { 0 < link }
    requires end { from + width < 2 ^ 64 }
    requires tree { (t : Tree) × IsTree (key_at nodes.now) nodes.now link from width t }
    ensures { (t : Tree) → IsTree (key_at nodes.now) nodes.now link from width t
        → IsLeast (key_at nodes.now) bound t best result }
{
    let position = link - 1;
    let node = nodes[position as usize];
    let own = lesser(best, node.key, position, bound);
    let half = width / 2;
    let low = first_from(nodes, node.low, from, half, bound, own);
    if low.key < from + half {
        return low;
    }
    first_from(nodes, node.high, from + half, width - half, bound, low)
}

/// The greatest key of at most `bound` in the tree at the link, or `best` where that is greater.
#[cycle(last)]
pub fn last_up_to(
    nodes: &[Node],
    link: u32,
    from: u64,
    width: u64,
    bound: u64,
    best: Reached,
) -> Reached
    requires end { from + width < 2 ^ 64 }
    requires tree { (t : Tree) × IsTree (key_at nodes.now) nodes.now link from width t }
    ensures { (t : Tree) → IsTree (key_at nodes.now) nodes.now link from width t
        → IsGreatest (key_at nodes.now) bound t best result }
{
    if link == 0 {
        return best;
    }
    if bound < from {
        return best;
    }
    last_below(nodes, link, from, width, bound, best)
}

/// The same where the tree isn't empty. It stands apart, so that an empty one costs no call.
#[cycle(last)]
#[inline(never)]
fn last_below(
    nodes: &[Node],
    link: u32,
    from: u64,
    width: u64,
    bound: u64,
    best: Reached,
) -> Reached
    requires some { 0 < link }
    requires end { from + width < 2 ^ 64 }
    requires tree { (t : Tree) × IsTree (key_at nodes.now) nodes.now link from width t }
    ensures { (t : Tree) → IsTree (key_at nodes.now) nodes.now link from width t
        → IsGreatest (key_at nodes.now) bound t best result }
{
    let position = link - 1;
    let node = nodes[position as usize];
    let own = greater(best, node.key, position, bound);
    let half = width / 2;
    let high = last_up_to(nodes, node.high, from + half, width - half, bound, own);
    if from + half < high.after {
        return high;
    }
    last_up_to(nodes, node.low, from, half, bound, high)
}
