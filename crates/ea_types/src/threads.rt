//! A run of several types in which the schedulers step beside each other.
ghost use Rattle.std.specs.Prelude.{◌≡◌, ◌≢◌, ℕ, ◌+◌, ◌<◌, All, IfOk, length, slice_index_or};
ghost use Rattle.std.specs.List.{AllZip};
ghost use Rattle.ea_model.specs.declared.trace.Mode.TheVariants.{Generated};
ghost use Rattle.ea_model.specs.Settings.{IsValidConfig};
ghost use Rattle.ea_model.specs.Trace.{IsValidTrace};
ghost use Rattle.ea_table.specs.Threads.{IsOfRun};
ghost use Rattle.ea_types.specs.Tables.{AreAtRest, AreBoards, AreFresh, IsOfValid, RestAt};

use crate::at_work::run_scheduler;
use crate::columns::{add_row, no_columns};
use ea_model::{Config, List, OutOfMemory, Outcome, Trace};
use ea_table::{Board, Finished, Gate, Made, Worker, gather_run, make_seats, workers_of};
use std::alloc::Global;
use std::thread::Threads;
use std::{mem, thread};

/// The tables of the types, in order, and the workers of each scheduler, one for each type.
#[derive(Drop)]
struct Seated<'t> {
    boards: Vec<Board<'t>>,
    workers: Vec<Vec<Worker<'t>>>,
}

/// A table for each type, and a worker at each for each scheduler.
fn seat_all<'t>(
    alloc: Global,
    config: Config,
    traces: &'t [Trace],
) -> Result<Seated<'t>, OutOfMemory>
    requires config { IsValidConfig config }
    requires traces { All (λ t. IsValidTrace config.schedulers t) traces.now }
    requires texts { All (λ t. length t.texts.items ≡ config.schedulers) traces.now }
    ensures boards { IfOk result (λ s. AreBoards config traces.now s.boards.items) }
    ensures count { IfOk result (λ s. length s.workers.items ≡ config.schedulers) }
    ensures fresh { IfOk result (λ s. (j : ℕ) (d : _) → j < config.schedulers
        → AreFresh s.boards.items (j + 1) (slice_index_or s.workers.items j d).items) }
{
    let mut boards = Vec::new(alloc);
    let mut workers = no_columns(alloc, config.schedulers as usize)?;
    for trace in traces {
        let Made { board, passes } = make_seats(alloc, config, trace)?;
        let row = workers_of(alloc, config, trace, passes)?;
        add_row(&mut workers, row)?;
        boards.push(board)?;
    }
    Ok(Seated { boards, workers })
}

/// Runs the schedulers beside each other, each in all types on a thread of its own. Answers for each
/// scheduler how it ends in each type.
fn run_all<'t, R: Threads + Sync, G: Gate + Sync>(
    rt: &R,
    alloc: Global,
    boards: &[Board<'_>],
    parts: &[List<u8>],
    gate: &G,
    workers: Vec<Vec<Worker<'t>>>,
) -> Result<Vec<Result<Vec<Finished<'t>>, OutOfMemory>>, OutOfMemory>
    requires valid { All IsOfValid boards.now }
    requires fresh { (j : ℕ) (d : _) → j < length workers.items
        → AreFresh boards.now (j + 1) (slice_index_or workers.items j d).items }
    ensures count { IfOk result (λ rows. length rows.items ≡ length workers.entry.items) }
    ensures rest { IfOk result (λ rows. (j : ℕ) (d : _) → j < length workers.entry.items
        → IfOk (slice_index_or rows.items j d) (λ fs. AreAtRest boards.now (j + 1) fs.items)) }
{
    Ok(thread::map_vec(
        rt,
        workers,
        &|ws: Vec<Worker<'_>>|
            requires valid { All IsOfValid boards.now }
            requires fresh { (i : ℕ) × AreFresh boards.now i ws.items }
            ensures { IfOk result (λ fs. (i : ℕ) → AreFresh boards.entry.now i ws.entry.items
                → AreAtRest boards.entry.now i fs.items) }
        { run_scheduler(ws, alloc, boards, parts, gate) },
    )?)
}

/// The schedulers of each type as they end, in order, of what each scheduler answered.
fn by_type<'t>(
    alloc: Global,
    boards: &[Board<'_>],
    rows: Vec<Result<Vec<Finished<'t>>, OutOfMemory>>,
) -> Result<Vec<Vec<Finished<'t>>>, OutOfMemory>
    requires { (j : ℕ) (d : _) → j < length rows.items
        → IfOk (slice_index_or rows.items j d) (λ fs. AreAtRest boards.now (j + 1) fs.items) }
    ensures count { IfOk result (λ columns. length columns.items ≡ length boards.now) }
    ensures rest { IfOk result (λ columns. (k : ℕ) (b : _) (d : _) → k < length boards.now
        → RestAt (slice_index_or boards.now k b) (length rows.entry.items)
        (slice_index_or columns.items k d).items) }
{
    let mut columns = no_columns(alloc, boards.len())?;
    for row in rows {
        add_row(&mut columns, row?)?;
    }
    Ok(columns)
}

/// What is printed of the run of each type, in order.
fn gather_all<'t>(
    alloc: Global,
    config: Config,
    traces: &'t [Trace],
    boards: Vec<Board<'t>>,
    mut finished: Vec<Vec<Finished<'t>>>,
) -> Result<List<Outcome>, OutOfMemory>
    requires config { IsValidConfig config }
    requires traces { All (λ t. IsValidTrace config.schedulers t) traces.now }
    requires boards { AreBoards config traces.now boards.items }
    requires count { length finished.items ≡ length boards.items }
    requires rest { (k : ℕ) (b : _) (d : _) → k < length boards.items
        → RestAt (slice_index_or boards.items k b) config.schedulers
        (slice_index_or finished.items k d).items }
    ensures { IfOk result (λ os. AllZip (IsOfRun config) traces.now os.items) }
{
    let mut outcomes = List::new(alloc);
    let mut place = 0;
    for board in boards {
        let own = mem::replace(&mut finished[place], Vec::new(alloc));
        outcomes.push(gather_run(alloc, config, &traces[place], board, own)?)?;
        place += 1;
    }
    Ok(outcomes)
}

/// Runs the traces of several types, one for each type, whose schedulers step beside each other,
/// each on a thread of its own. `parts` has for each scheduler the places of the types of its lines,
/// from 0, in the order of the lines: the scheduler does them in this order, each in its own type,
/// and then steps in each type, one after another, until it has ended there or is stopped. Answers
/// for each type what is printed of its state after all steps that were taken in it. It fails only
/// where there is no memory, after all threads are joined. Of the order between steps of two types
/// nothing is claimed.
pub fn run_typed_threads<R: Threads + Sync, G: Gate + Sync>(
    rt: &R,
    alloc: Global,
    config: Config,
    traces: &[Trace],
    parts: &[List<u8>],
    gate: &G,
) -> Result<List<Outcome>, OutOfMemory>
    requires config { IsValidConfig config }
    requires traces { All (λ t. IsValidTrace config.schedulers t) traces.now }
    requires given { All (λ t. (seed count : ℕ) → t.mode ≢ Generated seed count) traces.now }
    ensures { IfOk result (λ os. AllZip (IsOfRun config) traces.now os.items) }
{
    let Seated { boards, workers } = seat_all(alloc, config, traces)?;
    let rows = run_all(rt, alloc, &boards, parts, gate, workers)?;
    let finished = by_type(alloc, &boards, rows)?;
    gather_all(alloc, config, traces, boards, finished)
}
