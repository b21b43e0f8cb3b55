//! Many steps against plain walks over the sizes.
ghost use Rattle.std.specs.Prelude.{◌≡◌, ◌^◌, ◌<◌, ◌≤◌, length, vec_len};

use ea_sizemap::{HeldSize, SizeMap};
use std::test::Fail;

/// Lets the position hold the size, or none where it is 0, in the map and in a plain list.
fn put(map: &mut SizeMap, held: &mut Vec<u32>, position: u32, size: u32)
    requires position { position < vec_len held.old }
    requires size { size ≤ map.old.most }
    requires same { map.old.held ≡ held.old.items }
    ensures most { map.new.most ≡ map.old.most }
    ensures len { vec_len held.new ≡ vec_len held.old }
    ensures same { map.new.held ≡ held.new.items }
{
    let index = position as usize;
    let before = held[index];
    if before != 0 {
        map.remove(before, position);
        held[index] = 0;
    }
    if size != 0 {
        map.insert(size, position);
        held[index] = size;
    }
}

/// What the map finds of the least held size of at least `size`: with its lowest position, and with
/// its highest.
fn found(map: &SizeMap, size: u32) -> (Option<HeldSize>, Option<HeldSize>)
    requires { 1 ≤ size }
{
    (map.lowest_at_least(size), map.highest_at_least(size))
}

/// What is found where that is the size, with its lowest and its highest position.
fn both(answer: Option<(u32, u32, u32)>) -> (Option<HeldSize>, Option<HeldSize>) {
    match answer {
        Some((size, lowest, highest)) => (
            Some(HeldSize {
                size,
                position: lowest,
            }),
            Some(HeldSize {
                size,
                position: highest,
            }),
        ),
        None => (None, None),
    }
}

/// The least size of at least `size`, with its lowest and its highest position, by a walk.
fn found_by_walk(held: &[u32], size: u32) -> Option<(u32, u32, u32)>
    requires { length held.now < 2 ^ 32 }
{
    let mut best = None;
    for (index, other) in held.iter().enumerate() {
        let at = index as u32;
        if *other >= size {
            best = match best {
                Some((least, low, _)) if least == *other => Some((least, low, at)),
                Some((least, low, high)) if least < *other => Some((least, low, high)),
                _ => Some((*other, at, at)),
            };
        }
    }
    best
}

#[test]
fn many_steps_agree_with_a_walk(rt: HostRuntime) -> Result<(), Fail> {
    let mut map = SizeMap::new(rt.alloc(), 12, 40)?;
    let mut held = vec![in rt.alloc(); 0; 40]?;
    let mut number: u32 = 1;
    for step in 0..1000 {
        number = number.wrapping_mul(1_664_525).wrapping_add(1_013_904_223);
        let position = (number >> 8) % 40;
        put(&mut map, &mut held, position, (number >> 20) % 13);
        let least = 1 + (number >> 26) % 13;
        let answer = found_by_walk(&held, least);
        assert!(rt; found(&map, least) == both(answer), "after {step} steps");
        let greatest = held.iter().copied().max().unwrap_or(0);
        assert!(rt; map.greatest() == greatest);
    }
    Ok(())
}
