//! The whole text.
ghost use Rattle.std.specs.Prelude.{◌≡◌, ◌++◌, IfOk, OnOk, map};
ghost use Rattle.ea_report.specs.Text.{logs_text, outcome_text};

use crate::carriers::{put_carriers, put_totals};
use crate::entries::put_log;
use crate::lines::Word::Sum;
use crate::lines::put_line;
use ea_model::{List, Log, OutOfMemory, Outcome};
use std::alloc::Global;

/// Adds the logs, each after a line with the number of its scheduler.
fn put_logs(text: &mut List<u8>, logs: &[Log]) -> Result<(), OutOfMemory>
    ensures { OnOk result
        (text.new.items ≡ text.old.items ++ logs_text 1 (map (λ log. log.items) logs.now)) }
{
    for (index, log) in logs.iter().enumerate() {
        put_line(text, "scheduler", &[Sum(index as u64 + 1)])?;
        put_log(text, log)?;
    }
    Ok(())
}

/// Adds the output text: the log of each scheduler, the carriers by rising number and the totals.
#[tactic(auto, using(std::proofs::lemmas::List::append_assoc))]
pub fn put_outcome(text: &mut List<u8>, outcome: &Outcome) -> Result<(), OutOfMemory>
    ensures { OnOk result (text.new.items ≡ text.old.items ++ outcome_text outcome.now) }
{
    put_logs(text, outcome.logs.as_slice())?;
    put_carriers(text, outcome.carriers.as_slice())?;
    put_totals(text, outcome.totals)?;
    Ok(())
}

/// The output text. An `Err` says that there was no memory.
pub fn print(alloc: Global, outcome: &Outcome) -> Result<List<u8>, OutOfMemory>
    ensures { IfOk result (λ printed. printed.items ≡ outcome_text outcome.now) }
{
    let mut text = List::new(alloc);
    put_outcome(&mut text, outcome)?;
    Ok(text)
}
