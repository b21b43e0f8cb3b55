//! The text of a generated trace.
ghost use Rattle.std.specs.Prelude.{◌≡◌, ◌++◌, [], IfOk, OnOk, count_by, map};
ghost use Rattle.ea_report.specs.Text.{count_of, counts_text, counted_text, summary_text};
ghost use Rattle.ea_report.specs.Text as defined;
ghost use Rattle.ea_model.specs.Entries.{told};

use crate::carriers::put_totals;
use crate::lines::Word::{Number, Sum, Text};
use crate::lines::put_line;
use ea_model::{Entry, List, Log, OutOfMemory, Outcome};
use std::alloc::Global;

/// The entries that are counted together: those of operations that were done, and those of
/// allocations that found no place.
#[derive(Debug, Clone, Copy)]
pub enum Counted {
    /// A block was placed.
    Alloc,
    /// No block was placed.
    Fail,
    /// The scheduler released the block itself.
    Free,
    /// The block was queued to another instance.
    Queued,
    /// The block was given.
    Give,
    /// The block was taken: its name was given at one of the tries.
    Take,
}

/// Whether an entry is one of these.
fn is_of(kind: Counted, entry: &Entry<usize>) -> bool
    ensures { result ≡ defined.is_of kind (told [] entry.now) }
{
    match kind {
        Counted::Alloc => matches!(entry, Entry::Alloc { .. }),
        Counted::Fail => matches!(entry, Entry::AllocFail { .. }),
        Counted::Free => matches!(entry, Entry::Free { .. }),
        Counted::Queued => matches!(entry, Entry::FreeQueued { .. }),
        Counted::Give => matches!(entry, Entry::Give { .. }),
        Counted::Take => matches!(entry, Entry::Take { .. }),
    }
}

/// How many entries are of these.
fn count_in(entries: &[Entry<usize>], kind: Counted) -> u64
    ensures { result ≡ count_by (λ e. defined.is_of kind (told [] e)) entries.now }
{
    entries.iter().filter(|entry| is_of(kind, entry)).count() as u64
}

/// How many entries of a log are of these.
fn count(log: &Log, kind: Counted) -> u64
    ensures { result ≡ count_of kind log.now.items }
{
    count_in(log.parts().0, kind)
}

/// Adds the line of a scheduler, with the counts of its log.
fn put_counts(text: &mut List<u8>, number: u64, log: &Log) -> Result<(), OutOfMemory>
    ensures { OnOk result (text.new.items ≡ text.old.items ++ counts_text number log.now.items) }
{
    let words = [
        Sum(number),
        Text("alloc"),
        Sum(count(log, Counted::Alloc)),
        Text("fail"),
        Sum(count(log, Counted::Fail)),
        Text("free"),
        Sum(count(log, Counted::Free)),
        Text("queued"),
        Sum(count(log, Counted::Queued)),
        Text("give"),
        Sum(count(log, Counted::Give)),
        Text("take"),
        Sum(count(log, Counted::Take)),
    ];
    put_line(text, "scheduler", &words)
}

/// Adds the line of each scheduler.
fn put_counted(text: &mut List<u8>, logs: &[Log]) -> Result<(), OutOfMemory>
    ensures { OnOk result
        (text.new.items ≡ text.old.items ++ counted_text 1 (map (λ log. log.items) logs.now)) }
{
    for (index, log) in logs.iter().enumerate() {
        put_counts(text, index as u64 + 1, log)?;
    }
    Ok(())
}

/// The output text of a generated trace, whose operations are that many of each scheduler and
/// follow from the seed: for each scheduler how many entries its log has of each kind that is
/// counted, and the totals. An `Err` says that there was no memory.
pub fn print_summary(
    alloc: Global,
    seed: u32,
    count: u32,
    outcome: &Outcome,
) -> Result<List<u8>, OutOfMemory>
    ensures { IfOk result (λ printed. printed.items ≡ summary_text seed count outcome.now) }
{
    let mut text = List::new(alloc);
    put_line(&mut text, "generated", &[Number(seed), Number(count)])?;
    put_counted(&mut text, outcome.logs.as_slice())?;
    put_totals(&mut text, outcome.totals)?;
    Ok(text)
}
