//! What the carriers of an instance come to: kept, and not counted anew.
ghost use Rattle.std.specs.Prelude.{◌≡◌, ◌+◌, ◌-◌, ◌*◌, ◌^◌, ◌<◌, ◌≤◌, []};
ghost use Rattle.ea_model.specs.declared.units.TheConstants.{HEADER_UNITS};
ghost use Rattle.ea_model.specs.Instance as instances;
ghost use Rattle.ea_employed.specs.Counted.{with_block, with_carrier, with_whole};

use ea_model::{Figures, HEADER_UNITS};

/// The figures of no carriers.
pub fn no_figures() -> Figures
    ensures { result ≡ instances.figures [] }
{
    Figures {
        blocks: 0,
        blocks_size: 0,
        carriers: 0,
        carriers_size: 0,
    }
}

/// The figures with a block of that many units more.
pub fn with_block(figures: Figures, size: u32) -> Figures
    requires { (figures.blocks + 1 < 2 ^ 64) × (figures.blocks_size + size < 2 ^ 64) }
    ensures { result ≡ with_block size figures }
{
    Figures {
        blocks: figures.blocks + 1,
        blocks_size: figures.blocks_size + u64::from(size),
        ..figures
    }
}

/// The figures without a block of that many units.
pub fn without_block(figures: Figures, size: u32) -> Figures
    requires { (1 ≤ figures.blocks) × (size ≤ figures.blocks_size) }
    ensures { with_block size result ≡ figures }
{
    Figures {
        blocks: figures.blocks - 1,
        blocks_size: figures.blocks_size - u64::from(size),
        ..figures
    }
}

/// The figures where a block that had `was` units has that many.
pub fn with_size(figures: Figures, was: u32, size: u32) -> Figures
    requires { (was ≤ figures.blocks_size) × (figures.blocks_size - was + size < 2 ^ 64) }
    ensures { with_block was result ≡ with_block size figures }
{
    Figures {
        blocks_size: figures.blocks_size - u64::from(was) + u64::from(size),
        ..figures
    }
}

/// The figures with a carrier of that many units more, without blocks.
pub fn with_carrier(figures: Figures, units: u32) -> Figures
    requires { (figures.carriers + 1 < 2 ^ 64) × (figures.carriers_size + units < 2 ^ 64) }
    ensures { result ≡ with_carrier units figures }
{
    Figures {
        carriers: figures.carriers + 1,
        carriers_size: figures.carriers_size + u64::from(units),
        ..figures
    }
}

/// The figures with a carrier of that many units more, which has blocks of `size` units.
pub fn with_whole(figures: Figures, blocks: u32, size: u32, units: u32) -> Figures
    requires { (figures.blocks + blocks < 2 ^ 64) × (figures.blocks_size + size < 2 ^ 64)
        × (figures.carriers + 1 < 2 ^ 64) × (figures.carriers_size + units < 2 ^ 64) }
    ensures { result ≡ with_whole blocks size units figures }
{
    Figures {
        blocks: figures.blocks + u64::from(blocks),
        blocks_size: figures.blocks_size + u64::from(size),
        carriers: figures.carriers + 1,
        carriers_size: figures.carriers_size + u64::from(units),
    }
}

/// The figures without a carrier of that many units, which has blocks of `size` units.
pub fn without_whole(figures: Figures, blocks: u32, size: u32, units: u32) -> Figures
    requires { (blocks ≤ figures.blocks) × (size ≤ figures.blocks_size) × (1 ≤ figures.carriers)
        × (units ≤ figures.carriers_size) }
    ensures { with_whole blocks size units result ≡ figures }
{
    Figures {
        blocks: figures.blocks - u64::from(blocks),
        blocks_size: figures.blocks_size - u64::from(size),
        carriers: figures.carriers - 1,
        carriers_size: figures.carriers_size - u64::from(units),
    }
}

/// The figures without a carrier of that many units, which has no blocks.
pub fn without_carrier(figures: Figures, units: u32) -> Figures
    requires { (1 ≤ figures.carriers) × (units ≤ figures.carriers_size) }
    ensures { with_carrier units result ≡ figures }
{
    Figures {
        carriers: figures.carriers - 1,
        carriers_size: figures.carriers_size - u64::from(units),
        ..figures
    }
}
