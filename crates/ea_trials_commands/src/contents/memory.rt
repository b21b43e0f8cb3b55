//! A memory with blocks.
use ea_contents::Memory;
use ea_model::Extent;
use std::test::Fail;

#[test]
fn a_block_takes_over_words_and_has_zeros_after_them(rt: HostRuntime) -> Result<(), Fail> {
    let mut memory = Memory::new(rt.alloc(), 40)?;
    assert_eq!(rt; memory.len(), 40);
    let old = Extent { first: 8, units: 6 };
    memory.bring(rt.alloc(), old, None)?;
    memory.write(old, 0, 7);
    memory.write(old, 4, 9);
    let fresh = Extent {
        first: 20,
        units: 10,
    };
    memory.bring(rt.alloc(), fresh, Some(old))?;
    assert_eq!(rt; memory.read(fresh, 0), 7);
    assert_eq!(rt; memory.read(fresh, 4), 9);
    assert_eq!(rt; memory.read(fresh, 5), 0);
    assert_eq!(rt; memory.read(fresh, 8), 0);
    memory.bring(rt.alloc(), fresh, None)?;
    assert_eq!(rt; memory.read(fresh, 0), 0);
    Ok(())
}

#[test]
fn words_lie_on_both_sides_of_a_border_of_pages(rt: HostRuntime) -> Result<(), Fail> {
    let mut memory = Memory::new(rt.alloc(), 9000)?;
    let block = Extent {
        first: 4090,
        units: 10,
    };
    memory.bring(rt.alloc(), block, None)?;
    memory.write(block, 5, 7);
    memory.write(block, 6, 9);
    let moved = Extent {
        first: 4091,
        units: 9,
    };
    memory.bring(rt.alloc(), moved, Some(block))?;
    assert_eq!(rt; memory.read(moved, 5), 7);
    assert_eq!(rt; memory.read(moved, 6), 9);
    assert_eq!(rt; memory.read(moved, 7), 0);
    Ok(())
}
