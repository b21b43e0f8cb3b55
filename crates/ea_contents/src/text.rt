//! The text of a run with writes and reads.
ghost use Rattle.std.specs.Prelude.{◌≡◌, ◌++◌, IfOk, OnOk, flat_map, map};
ghost use Rattle.ea_contents.specs.Text.{line_text, lists_text, ran_text};

use crate::access::AccessEntry;
use ea_model::{List, OutOfMemory, Outcome};
use ea_report::Word::{Number, Sum, Text};
use ea_report::{put_line, put_outcome};
use std::alloc::Global;

/// Adds the line of a write or of a read.
fn put_entry(text: &mut List<u8>, entry: AccessEntry) -> Result<(), OutOfMemory>
    ensures { OnOk result (text.new.items ≡ text.old.items ++ line_text entry) }
{
    match entry {
        AccessEntry::Wrote { name, index } => {
            put_line(text, "write", &[Number(name), Number(index), Text("done")])
        }
        AccessEntry::Found { name, index, value } => {
            put_line(text, "read", &[Number(name), Number(index), Number(value)])
        }
        AccessEntry::WriteOutside { name, index } => {
            put_line(
                text,
                "write",
                &[Number(name), Number(index), Text("outside")],
            )
        }
        AccessEntry::ReadOutside { name, index } => {
            put_line(
                text,
                "read",
                &[Number(name), Number(index), Text("outside")],
            )
        }
        AccessEntry::WriteSkipped { name } => {
            put_line(text, "write", &[Number(name), Text("skipped")])
        }
        AccessEntry::ReadSkipped { name } => {
            put_line(text, "read", &[Number(name), Text("skipped")])
        }
    }
}

/// Adds the lines of a scheduler.
fn put_entries(text: &mut List<u8>, entries: &[AccessEntry]) -> Result<(), OutOfMemory>
    ensures { OnOk result (text.new.items ≡ text.old.items ++ flat_map line_text entries.now) }
{
    for entry in entries {
        put_entry(text, *entry)?;
    }
    Ok(())
}

/// Adds the lines of each scheduler, after one with its number.
fn put_lists(text: &mut List<u8>, lists: &[List<AccessEntry>]) -> Result<(), OutOfMemory>
    ensures { OnOk result
        (text.new.items ≡ text.old.items ++ lists_text 1 (map (λ l. l.items) lists.now)) }
{
    for (index, list) in lists.iter().enumerate() {
        put_line(text, "scheduler", &[Sum(index as u64 + 1)])?;
        put_entries(text, list.as_slice())?;
    }
    Ok(())
}

/// The text: that of the outcome, the line `contents`, and what came of the writes and reads of each
/// scheduler, scheduler 1's first. An `Err` says that there was no memory.
#[tactic(auto, using(std::proofs::lemmas::List::append_assoc))]
pub fn print_contents(
    alloc: Global,
    outcome: &Outcome,
    shown: &[List<AccessEntry>],
) -> Result<List<u8>, OutOfMemory>
    ensures { IfOk result (λ text.
        text.items ≡ ran_text outcome.now (map (λ l. l.items) shown.now)) }
{
    let mut text = List::new(alloc);
    put_outcome(&mut text, outcome)?;
    put_line(&mut text, "contents", &[])?;
    put_lists(&mut text, shown)?;
    Ok(text)
}
