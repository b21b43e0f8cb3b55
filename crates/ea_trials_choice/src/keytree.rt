//! Many steps against plain walks over the keys.
ghost use Rattle.std.specs.Prelude.{◌≡◌, ℕ, ◌+◌, ◌^◌, ◌<◌, Some, length, vec_len};

use ea_keytree::{Found, KeyTree};
use std::test::Fail;

/// Lets the position hold the key, or none, in the tree and in a plain list. A key that another
/// position holds stays there.
fn put(tree: &mut KeyTree, held: &mut Vec<Option<u64>>, position: u32, key: Option<u64>)
    requires position { position < vec_len held.old }
    requires key { (k : ℕ) → key ≡ Some k → k < tree.old.width }
    requires same { tree.old.keys ≡ held.old.items }
    ensures width { tree.new.width ≡ tree.old.width }
    ensures len { vec_len held.new ≡ vec_len held.old }
    ensures same { tree.new.keys ≡ held.new.items }
{
    if let Some(before) = held[position as usize] {
        let at = tree.remove(before);
        held[at as usize] = None;
    }
    if let Some(key) = key {
        if held[position as usize].is_none() && !held.contains(&Some(key)) {
            tree.insert(key, position);
            held[position as usize] = Some(key);
        }
    }
}

/// The least key of at least `bound` and the greatest of at most `bound`, with their positions.
fn found(tree: &KeyTree, bound: u64) -> (Option<(u64, u32)>, Option<(u64, u32)>) {
    (pair(tree.first_from(bound)), pair(tree.last_up_to(bound)))
}

fn pair(found: Option<Found>) -> Option<(u64, u32)> {
    match found {
        Some(found) => Some((found.key, found.position)),
        None => None,
    }
}

/// The same by a walk.
fn found_by_walk(held: &[Option<u64>], bound: u64) -> (Option<(u64, u32)>, Option<(u64, u32)>)
    requires { length held.now < 2 ^ 32 }
{
    let mut first = None;
    let mut last = None;
    for (index, other) in held.iter().enumerate() {
        if let Some(key) = *other {
            let at = index as u32;
            if key >= bound {
                first = match first {
                    Some((least, position)) if least < key => Some((least, position)),
                    _ => Some((key, at)),
                };
            }
            if key <= bound {
                last = match last {
                    Some((greatest, position)) if greatest > key => Some((greatest, position)),
                    _ => Some((key, at)),
                };
            }
        }
    }
    (first, last)
}

#[test]
fn many_steps_agree_with_a_walk(rt: HostRuntime) -> Result<(), Fail> {
    let mut tree = KeyTree::with_positions(rt.alloc(), 91, 40)?;
    let mut held = vec![in rt.alloc(); None; 40]?;
    let mut number: u32 = 1;
    for step in 0..3000 {
        number = number.wrapping_mul(1_664_525).wrapping_add(1_013_904_223);
        let position = (number >> 8) % 40;
        let key = if (number >> 15) % 4 == 0 {
            None
        } else {
            Some(u64::from((number >> 17) % 91))
        };
        put(&mut tree, &mut held, position, key);
        let bound = u64::from((number >> 24) % 93);
        assert!(rt;
            found(&tree, bound) == found_by_walk(&held, bound),
            "after {step} steps"
        );
    }
    Ok(())
}
