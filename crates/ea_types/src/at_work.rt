//! The thread of a scheduler: its workers, one for each type.
ghost use Rattle.std.specs.Prelude.{◌≡◌, ℕ, All, IfOk, OnOk};
ghost use Rattle.ea_table.specs.Working.{IsAtWork, IsThrough};
ghost use Rattle.ea_types.specs.Tables.{AllWorkOn, AreAtRest, AreAtWork, AreFresh, IsOfValid};
ghost use Rattle.ea_types.specs.Tables.{lines_in};

use ea_model::{List, OutOfMemory};
use ea_table::{Board, Finished, Gate, Worker, Working};
use std::alloc::Global;

/// The places of the types of a scheduler's lines, in order, where `parts` has those of each
/// scheduler.
fn lines_of<'p>(parts: &'p [List<u8>], workers: &[Worker<'_>]) -> &'p [u8]
    ensures { result.now ≡ lines_in parts.now workers.now }
{
    let Some(worker) = workers.first() else {
        return &[];
    };
    match parts.get(worker.scheduler.number() as usize - 1) {
        Some(lines) => lines.as_slice(),
        None => &[],
    }
}

/// The workers sit down, each at the table of its type.
fn begin_all<'a, 'b, 't>(
    alloc: Global,
    workers: Vec<Worker<'t>>,
    boards: &'a [Board<'b>],
) -> Result<Vec<Working<'a, 'b, 't>>, OutOfMemory>
    requires valid { All IsOfValid boards.now }
    requires fresh { (i : ℕ) × AreFresh boards.now i workers.items }
    ensures { IfOk result (λ ws. (i : ℕ) → AreFresh boards.now i workers.entry.items
        → AreAtWork boards.now i ws.items) }
{
    let mut working = Vec::new(alloc);
    let mut place = 0;
    for worker in workers {
        working.push(worker.begin(&boards[place]))?;
        place += 1;
    }
    Ok(working)
}

/// Does an operation of the type at that place; none where there is no such type.
fn operate_at<G: Gate>(
    alloc: Global,
    working: &mut [Working<'_, '_, '_>],
    place: usize,
    gate: &G,
) -> Result<(), OutOfMemory>
    requires works { All IsAtWork working.old }
    ensures works { AllWorkOn working.old working.new }
{
    if place >= working.len() {
        return Ok(());
    }
    working[place].operate(alloc, gate)?;
    Ok(())
}

/// Does the lines one after another, each an operation of the type at its place.
fn run_lines<G: Gate>(
    alloc: Global,
    working: &mut [Working<'_, '_, '_>],
    lines: &[u8],
    gate: &G,
) -> Result<(), OutOfMemory>
    requires works { All IsAtWork working.old }
    ensures works { AllWorkOn working.old working.new }
{
    for line in lines {
        operate_at(alloc, working, *line as usize, gate)?;
    }
    Ok(())
}

/// Steps in each type, one after another, until the scheduler has ended there or is stopped.
fn run_out_all<G: Gate>(
    alloc: Global,
    working: &mut [Working<'_, '_, '_>],
    gate: &G,
) -> Result<(), OutOfMemory>
    requires works { All IsAtWork working.old }
    ensures works { AllWorkOn working.old working.new }
    ensures through { OnOk result (All IsThrough working.new) }
{
    for place in 0..working.len() {
        working[place].run_out(alloc, gate)?;
    }
    Ok(())
}

/// Does the lines, and then steps in each type.
fn step_all<G: Gate>(
    alloc: Global,
    working: &mut [Working<'_, '_, '_>],
    lines: &[u8],
    gate: &G,
) -> Result<(), OutOfMemory>
    requires works { All IsAtWork working.old }
    ensures works { AllWorkOn working.old working.new }
    ensures through { OnOk result (All IsThrough working.new) }
{
    run_lines(alloc, working, lines, gate)?;
    run_out_all(alloc, working, gate)
}

/// The workers when they take no more steps.
fn finish_all<'t>(
    alloc: Global,
    working: Vec<Working<'_, '_, 't>>,
) -> Result<Vec<Finished<'t>>, OutOfMemory>
    requires works { All IsAtWork working.items }
    requires through { All IsThrough working.items }
    ensures { IfOk result (λ fs. (bs : _) (i : ℕ) → AreAtWork bs i working.entry.items
        → AreAtRest bs i fs.items) }
{
    let mut finished = Vec::new(alloc);
    for one in working {
        finished.push(one.finish(false))?;
    }
    Ok(finished)
}

/// Runs a scheduler in all types: first its lines, in their order, and then each type in turn, until
/// it has ended there or is stopped.
pub(crate) fn run_scheduler<'t, G: Gate>(
    workers: Vec<Worker<'t>>,
    alloc: Global,
    boards: &[Board<'_>],
    parts: &[List<u8>],
    gate: &G,
) -> Result<Vec<Finished<'t>>, OutOfMemory>
    requires valid { All IsOfValid boards.now }
    requires fresh { (i : ℕ) × AreFresh boards.now i workers.items }
    ensures { IfOk result (λ fs. (i : ℕ) → AreFresh boards.now i workers.entry.items
        → AreAtRest boards.now i fs.items) }
{
    let lines = lines_of(parts, &workers);
    let mut working = begin_all(alloc, workers, boards)?;
    step_all(alloc, &mut working, lines, gate)?;
    finish_all(alloc, working)
}
