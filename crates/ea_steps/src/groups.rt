//! Steps in a row that come to nothing, which one line tells.
ghost use Rattle.std.specs.Prelude.{◌≡◌, ◌++◌, OnOk};
ghost use Rattle.ea_machine.specs.Lists as lists;
ghost use Rattle.ea_steps.specs.Printed.{group_line, joined_told, rows_words, spaced_text};
ghost use Rattle.ea_steps.specs.Printed.{with_next};
ghost use Rattle.ea_steps.specs.Printed as printed;
ghost use Rattle.ea_steps.specs.Text.{span_text};

use crate::counts::Places;
use crate::joined::{Joined, are_alike};
use crate::rows::put_row;
use ea_given::Heard;
use ea_io::{put_number, put_text};
use ea_machine::OwnerWord;
use ea_model::{List, OutOfMemory};
use ea_report::Word::{Number, Text};
use ea_report::put_words;
use ea_sched::Wanted;

/// Whether a search counts the word.
fn counts(word: OwnerWord) -> bool
    ensures { result ≡ lists.counts word }
{
    match word {
        OwnerWord::Pooled { .. } | OwnerWord::Busy { .. } => true,
        OwnerWord::Absent | OwnerWord::Employed { .. } | OwnerWord::Returning { .. } => false,
    }
}

/// Which steps one line may tell with a look of the last part of a search, by what it saw.
fn looked(carrier: u32, heard: Heard) -> Joined
    ensures { result ≡ printed.looked_told carrier heard }
{
    match heard {
        Heard::Saw { word } => {
            if counts(word) {
                Joined::Apart
            } else {
                Joined::Looks { carrier }
            }
        }
        _ => Joined::Apart,
    }
}

/// Which steps one line may tell with a row that was answered so.
pub(crate) fn joined(wanted: Wanted, heard: Heard) -> Joined
    ensures { result ≡ joined_told wanted heard }
{
    match wanted {
        Wanted::Look { carrier, last } => {
            if last {
                looked(carrier, heard)
            } else {
                Joined::Apart
            }
        }
        Wanted::TakeTry { name } => match heard {
            Heard::Absent => Joined::Tries { name },
            _ => Joined::Apart,
        },
        _ => Joined::Apart,
    }
}

/// Steps of a scheduler in a row, which one line tells: the row of the first with its answer, where
/// the first and the last one stand, and which steps may be told with the last one.
#[derive(Debug, Clone, Copy, PartialEq, Eq)]
pub struct Group {
    pub scheduler: u32,
    pub wanted: Wanted,
    pub heard: Heard,
    pub first: Places,
    pub last: Places,
    pub joined: Joined,
}

impl Group {
    /// Whether the same line may tell the steps of the next group.
    pub(crate) fn takes(self, next: Group) -> bool
        ensures { result ≡ printed.takes self next }
    {
        if self.scheduler != next.scheduler {
            return false;
        }
        are_alike(self.joined, joined(next.wanted, next.heard))
    }

    /// The group with the steps of the next one after its own.
    pub(crate) fn with(self, next: Group) -> Group
        ensures { result ≡ with_next self next }
    {
        Group {
            last: next.last,
            joined: next.joined,
            ..self
        }
    }
}

/// Adds a number, or the first and the last of several.
fn put_span(text: &mut List<u8>, first: u64, last: u64) -> Result<(), OutOfMemory>
    ensures { OnOk result (text.new.items ≡ text.old.items ++ span_text first last) }
{
    put_number(text, first)?;
    if first == last {
        return Ok(());
    }
    put_text(text, "-")?;
    put_number(text, last)
}

/// Adds the words of the steps of a group: of several looks the first and the last carrier, of
/// other steps the row of each.
fn put_rows(text: &mut List<u8>, group: Group) -> Result<(), OutOfMemory>
    ensures { OnOk result (text.new.items ≡ text.old.items ++ spaced_text (rows_words group)) }
{
    if group.first.all == group.last.all {
        return put_row(text, group.wanted, group.heard);
    }
    if let Joined::Looks { carrier: first } = joined(group.wanted, group.heard) {
        if let Joined::Looks { carrier: last } = group.joined {
            let words = [Text("look"), Number(first), Text("to"), Number(last)];
            return put_words(text, &words);
        }
    }
    put_row(text, group.wanted, group.heard)
}

/// Adds the line of a group.
pub(crate) fn put_group(text: &mut List<u8>, group: Group) -> Result<(), OutOfMemory>
    ensures { OnOk result (text.new.items ≡ text.old.items ++ group_line group) }
{
    put_span(text, group.first.all, group.last.all)?;
    put_words(text, &[Number(group.scheduler)])?;
    put_text(text, " ")?;
    put_span(text, group.first.own, group.last.own)?;
    put_rows(text, group)?;
    put_text(text, "\n")
}
