//! Steps with known answers.
use ea_postree::PosTree;
use std::alloc::Global;
use std::process::Abort;
use std::test::Fail;

/// A position's new value, what is wanted then, the first position that has it, and the greatest
/// value.
type Step = (u32, u32, u32, Option<u32>, u32);

/// Takes the steps in a new tree.
fn compare(rt: &impl Abort, alloc: Global, positions: u32, steps: &[Step]) -> Result<(), Fail> {
    let mut tree = PosTree::new(alloc, positions)?;
    assert!(rt; tree.first_at_least(1) == None);
    assert!(rt; tree.largest() == 0);
    if positions > 0 {
        assert!(rt; tree.value(positions - 1) == 0);
    }
    for (position, value, wanted, first, largest) in steps {
        assert!(rt; *position < positions);
        assert!(rt; *wanted > 0);
        tree.set(*position, *value);
        assert!(rt; tree.value(*position) == *value);
        assert!(rt; tree.first_at_least(*wanted) == *first);
        assert!(rt; tree.largest() == *largest);
    }
    Ok(())
}

#[test]
fn no_position_and_one(rt: HostRuntime) -> Result<(), Fail> {
    compare(&rt, rt.alloc(), 0, &[])?;
    compare(
        &rt,
        rt.alloc(),
        1,
        &[
            (0, 5, 5, Some(0), 5),
            (0, 5, 6, None, 5),
            (0, 4_294_967_295, 4_294_967_295, Some(0), 4_294_967_295),
            (0, 1, 2, None, 1),
            (0, 0, 1, None, 0),
        ],
    )
}

#[test]
fn two_positions_and_three(rt: HostRuntime) -> Result<(), Fail> {
    compare(
        &rt,
        rt.alloc(),
        2,
        &[
            (1, 3, 1, Some(1), 3),
            (0, 3, 3, Some(0), 3),
            (0, 2, 3, Some(1), 3),
            (1, 0, 1, Some(0), 2),
        ],
    )?;
    compare(
        &rt,
        rt.alloc(),
        3,
        &[
            (2, 9, 9, Some(2), 9),
            (1, 8, 9, Some(2), 9),
            (2, 7, 8, Some(1), 8),
            (1, 6, 7, Some(2), 7),
            (2, 0, 7, None, 6),
        ],
    )
}

#[test]
fn five_positions_and_eight(rt: HostRuntime) -> Result<(), Fail> {
    compare(
        &rt,
        rt.alloc(),
        5,
        &[
            (3, 7, 1, Some(3), 7),
            (1, 7, 7, Some(1), 7),
            (1, 2, 3, Some(3), 7),
            (3, 1, 2, Some(1), 2),
            (4, 40, 3, Some(4), 40),
            (0, 40, 40, Some(0), 40),
            (0, 39, 40, Some(4), 40),
            (4, 0, 40, None, 39),
        ],
    )?;
    compare(
        &rt,
        rt.alloc(),
        8,
        &[
            (7, 1, 1, Some(7), 1),
            (4, 6, 2, Some(4), 6),
            (3, 5, 2, Some(3), 6),
            (3, 5, 6, Some(4), 6),
            (5, 6, 6, Some(4), 6),
            (4, 5, 6, Some(5), 6),
            (5, 0, 5, Some(3), 5),
            (3, 0, 2, Some(4), 5),
            (4, 0, 1, Some(7), 1),
        ],
    )
}

#[test]
fn a_later_position_leaves_the_values_before_it(rt: HostRuntime) -> Result<(), Fail> {
    compare(
        &rt,
        rt.alloc(),
        1000,
        &[
            (0, 5, 5, Some(0), 5),
            (1, 6, 6, Some(1), 6),
            (999, 7, 7, Some(999), 7),
            (1, 0, 6, Some(999), 7),
            (999, 0, 6, None, 5),
            (2, 5, 5, Some(0), 5),
            (0, 0, 5, Some(2), 5),
        ],
    )
}
