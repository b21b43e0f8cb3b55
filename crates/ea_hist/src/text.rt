//! The text of histograms.
ghost use Rattle.std.specs.Prelude.{◌≡◌, ◌++◌, IfOk, OnOk};
ghost use Rattle.ea_hist.specs.Intervals.{counts};
ghost use Rattle.ea_hist.specs.Text.{counts_text, histograms_text, layout_text, numbers_text};

use crate::counting::counts_of;
use ea_instance::Layout;
use ea_io::{put_number, put_text};
use ea_model::{List, OutOfMemory};
use std::alloc::Global;

/// Adds numbers, each after a space.
fn put_numbers(text: &mut List<u8>, numbers: &[u64]) -> Result<(), OutOfMemory>
    ensures { OnOk result (text.new.items ≡ text.old.items ++ numbers_text numbers.now) }
{
    for number in numbers {
        put_text(text, " ")?;
        put_number(text, *number)?;
    }
    Ok(())
}

/// Adds how many of the blocks and of the gaps lie in each interval, and ends the line.
fn put_counts(text: &mut List<u8>, blocks: &[u32], gaps: &[u32]) -> Result<(), OutOfMemory>
    ensures { OnOk result (text.new.items
        ≡ text.old.items ++ counts_text (counts blocks.now) (counts gaps.now)) }
{
    put_text(text, " blocks")?;
    put_numbers(text, &counts_of(blocks))?;
    put_text(text, " gaps")?;
    put_numbers(text, &counts_of(gaps))?;
    put_text(text, "\n")
}

/// Adds the line of a carrier.
fn put_layout(text: &mut List<u8>, layout: &Layout) -> Result<(), OutOfMemory>
    ensures { OnOk result (text.new.items ≡ text.old.items ++ layout_text layout.now) }
{
    put_text(text, "carrier ")?;
    put_number(text, u64::from(layout.number))?;
    put_counts(text, layout.blocks.as_slice(), layout.gaps.as_slice())
}

/// The text: a line for each carrier with its counts, and a line with their sums. It fails only
/// where there is no memory.
pub fn print_histograms(alloc: Global, layouts: &[Layout]) -> Result<List<u8>, OutOfMemory>
    ensures { IfOk result (λ text. text.items ≡ histograms_text layouts.now) }
{
    let mut text = List::new(alloc);
    // The sizes of all carriers, one after another: their counts are the sums.
    let mut blocks = List::new(alloc);
    let mut gaps = List::new(alloc);
    for layout in layouts {
        put_layout(&mut text, layout)?;
        blocks.extend_from_slice(layout.blocks.as_slice())?;
        gaps.extend_from_slice(layout.gaps.as_slice())?;
    }
    put_text(&mut text, "all")?;
    put_counts(&mut text, blocks.as_slice(), gaps.as_slice())?;
    Ok(text)
}
