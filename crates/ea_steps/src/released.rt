//! The lines of the blocks that a step released: each that it could release is looked up after it.
ghost use Rattle.std.specs.Prelude.{◌≡◌, ◌++◌, OnOk};
ghost use Rattle.std.specs.List.Sorted.{IsNonDecreasingBy, IsPermutation};
ghost use Rattle.ea_machine.specs.Stops.{run_with_stops};
ghost use Rattle.ea_given.specs.Runs.{HasScheduler, IsRun, Tells};
ghost use Rattle.ea_steps.specs.Found as found;
ghost use Rattle.ea_steps.specs.Noted.{HasStepped, Releases};
ghost use Rattle.ea_steps.specs.Released as specs;

use crate::lines::put_released;
use crate::made::added;
use crate::placed::PlacedBlock;
use crate::touched::Touched;
use ea_given::GivenRun;
use ea_model::{Entry, List, OutOfMemory, Spot};

/// Whether a block of the same name begins at the spot of the block.
fn is_there(run: &GivenRun<'_>, placed: PlacedBlock) -> bool
    requires { IsRun run.now }
    ensures { Tells (λ setup turns. result
        ≡ found.is_there setup (run_with_stops setup turns) placed) run.now }
{
    let spot = Spot {
        carrier: placed.carrier,
        offset: placed.block.offset,
    };
    match run.block_at(spot) {
        Some(block) => block.name == placed.block.name,
        None => false,
    }
}

/// Whether one of the entries gives the block of the name a new one.
fn is_renamed(entries: &[Entry<usize>], name: u32) -> bool
    ensures { result ≡ specs.is_renamed entries.now name }
{
    for entry in entries {
        if let Entry::ReallocHere { old, .. } = entry {
            if *old == name {
                return true;
            }
        }
    }
    false
}

/// Whether the block is gone: none of its name begins at its spot, and it has no other name by
/// these entries.
fn is_gone(run: &GivenRun<'_>, entries: &[Entry<usize>], placed: PlacedBlock) -> bool
    requires { IsRun run.now }
    ensures { Tells (λ setup turns. result
        ≡ specs.is_gone setup (run_with_stops setup turns) entries.now placed) run.now }
{
    if is_there(run, placed) {
        return false;
    }
    !is_renamed(entries, placed.block.name)
}

/// Adds the lines of those of the blocks that are gone, in their order.
fn put_each_released(
    text: &mut List<u8>,
    run: &GivenRun<'_>,
    entries: &[Entry<usize>],
    blocks: &[PlacedBlock],
) -> Result<(), OutOfMemory>
    requires { IsRun run.now }
    ensures { OnOk result (Tells (λ setup turns. text.new.items ≡ text.old.items
        ++ specs.gone_lines setup (run_with_stops setup turns) entries.now blocks.now) run.now) }
{
    for placed in blocks {
        if is_gone(run, entries, *placed) {
            put_released(text, *placed)?;
        }
    }
    Ok(())
}

/// Sorts blocks by rising name.
fn sort_by_name(blocks: &mut Vec<PlacedBlock>)
    ensures same { IsPermutation blocks.old.items blocks.new.items }
    ensures rises { IsNonDecreasingBy (λ placed. placed.block.name) blocks.new.items }
{
    blocks.sort_unstable_by_key(|placed| placed.block.name);
}

/// Adds the lines of the blocks that the step of scheduler `me` released, of those that it could
/// release, by rising name.
pub(crate) fn put_all_released(
    text: &mut List<u8>,
    run: &GivenRun<'_>,
    me: u32,
    touched: &mut Touched,
) -> Result<(), OutOfMemory>
    requires stands { IsRun run.now }
    requires scheduler { HasScheduler me run.now }
    requires stepped { HasStepped me touched.old run.now }
    ensures lines { OnOk result (Releases me touched.old run.now text.old.items text.new.items) }
    ensures others { OnOk result
        (touched.new ≡ record touched.old { blocks = touched.new.blocks }) }
{
    let entries = added(run, me, touched);
    sort_by_name(&mut touched.blocks);
    put_each_released(text, run, entries, &touched.blocks)
}
