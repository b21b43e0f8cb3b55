//! The whole text, for which the logs' texts are made side by side.
ghost use Rattle.std.specs.Prelude.{◌≡◌, ◌++◌, IfOk, OnOk, map};
ghost use Rattle.std.specs.List.{flat_map};
ghost use Rattle.ea_report.specs.Printed.{headed_texts};
ghost use Rattle.ea_report.specs.Text.{entry_text, outcome_text};

use crate::carriers::{put_carriers, put_totals};
use crate::entries::put_log;
use crate::lines::Word::Sum;
use crate::lines::put_line;
use crate::text::put_outcome;
use ea_model::{List, Log, OutOfMemory, Outcome};
use rayon::prelude::*;
use std::alloc::Global;
use std::thread::Threads;

/// From how many entries on, in all logs, threads make the texts.
const MANY: usize = 8192;

/// How many entries logs have in all, or 2^64-1 where there are more.
fn entries_in(logs: &[Log]) -> usize {
    let mut total: usize = 0;
    for log in logs {
        total = total.saturating_add(log.len());
    }
    total
}

/// How many bytes texts have in all, or 2^64-1 where there are more.
fn bytes_in(texts: &[List<u8>]) -> usize {
    let mut total: usize = 0;
    for text in texts {
        total = total.saturating_add(text.len());
    }
    total
}

/// The texts of logs, each made by one of as many threads as there are processors.
fn log_texts<R: Threads + Sync>(
    rt: &R,
    alloc: Global,
    logs: &[Log],
) -> Result<Vec<List<u8>>, OutOfMemory>
    ensures { IfOk result (λ texts. map (λ text. text.items) texts.items
        ≡ map (λ log. flat_map entry_text log.items) logs.now) }
{
    logs.par_iter()
        .with_min_len(1)
        .map(
            |log: &Log| -> Result<List<u8>, OutOfMemory>
                ensures { IfOk result (λ text. text.items ≡ flat_map entry_text log.now.items) }
            {
                let mut text = List::new(alloc);
                put_log(&mut text, log)?;
                Ok(text)
            },
        )
        .collect::<Result<Vec<List<u8>>, OutOfMemory>>(rt, alloc)?
}

/// Adds texts of logs, each after a line with the number of its scheduler.
fn put_texts(text: &mut List<u8>, logs: &[List<u8>]) -> Result<(), OutOfMemory>
    ensures { OnOk result
        (text.new.items ≡ text.old.items ++ headed_texts 1 (map (λ log. log.items) logs.now)) }
{
    for (index, log) in logs.iter().enumerate() {
        put_line(text, "scheduler", &[Sum(index as u64 + 1)])?;
        text.extend_from_slice(log.as_slice())?;
    }
    Ok(())
}

/// Adds the output text, as `put_outcome` does. Where the logs have many entries, their texts are
/// made side by side, by as many threads as there are processors.
#[tactic(auto, using(std::proofs::lemmas::List::append_assoc))]
pub fn put_beside<R: Threads + Sync>(
    rt: &R,
    alloc: Global,
    text: &mut List<u8>,
    outcome: &Outcome,
) -> Result<(), OutOfMemory>
    ensures { OnOk result (text.new.items ≡ text.old.items ++ outcome_text outcome.now) }
{
    let logs = outcome.logs.as_slice();
    if entries_in(logs) < MANY {
        return put_outcome(text, outcome);
    }
    let texts = log_texts(rt, alloc, logs)?;
    text.reserve(bytes_in(texts.as_slice()))?;
    put_texts(text, texts.as_slice())?;
    put_carriers(text, outcome.carriers.as_slice())?;
    put_totals(text, outcome.totals)?;
    Ok(())
}

/// The output text, as `print` makes it and `put_beside` adds it. An `Err` says that there was no
/// memory.
pub fn print_beside<R: Threads + Sync>(
    rt: &R,
    alloc: Global,
    outcome: &Outcome,
) -> Result<List<u8>, OutOfMemory>
    ensures { IfOk result (λ printed. printed.items ≡ outcome_text outcome.now) }
{
    let mut text = List::new(alloc);
    put_beside(rt, alloc, &mut text, outcome)?;
    Ok(text)
}
