//! A new table, and its passes.
ghost use Rattle.std.specs.Prelude.{◌≡◌, ℕ, ◌+◌, ◌<◌, ◌≤◌, false, [], IfOk, length};
ghost use Rattle.std.specs.Prelude.{slice_index_or, sum_by};
ghost use Rattle.ea_model.specs.declared.units.TheConstants.{MAX_OPS, MAX_PAGES, MAX_SCHEDULERS};
ghost use Rattle.ea_segments.specs.Ruling.{waiting_from};
ghost use Rattle.ea_segments.specs.Seating.{IsFresh};

use crate::desk::Desk;
use crate::ledger::Ledger;
use crate::pass::Pass;
use crate::rule::{Deals, Locked};
use crate::views::{About, View};
use atomic_table::{Seat, Table};
use ea_model::{List, OutOfMemory};
use std::alloc::Global;

/// A desk, and a pass for each scheduler, in order.
#[derive(Drop)]
pub struct Start {
    pub desk: Desk,
    pub passes: List<Pass>,
}

/// A pass for each scheduler, in order, by a seat that has them all before their first call.
fn deal(
    alloc: Global,
    table: &Table<Ledger, View, About, Locked, Global>,
    mut first: Seat<Ledger, View>,
    schedulers: u32,
) -> Result<List<Pass>, OutOfMemory>
    requires seated { first.table_id ≡ table.now.shared.table_id }
    requires words { 0 < table.now.shared.table_id.words }
    requires some { 1 ≤ schedulers }
    requires count { length table.now.shared.key.calls.items ≡ schedulers }
    requires bare { first.me.1 ≡ [] }
    requires all { first.me.0 ≡ record {
      holds = false;
      seated = waiting_from
          table.now.shared.key.pages table.now.shared.key.most 1 table.now.shared.key.calls.items;
    } }
    ensures all { IfOk result (λ passes. length passes.items ≡ schedulers) }
    ensures each { IfOk result (λ passes. (k : ℕ) (d : _) → k < schedulers
        → IsFresh table.now.shared.table_id table.now.shared.key (k + 1)
        (slice_index_or table.now.shared.key.calls.items k 0) (slice_index_or passes.items k d)) }
{
    let mut passes = List::new(alloc);
    for number in 1..schedulers {
        let seat = table.shared.split_seat::<Deals>(&mut first);
        passes.push(Pass { seat, number })?;
    }
    passes.push(Pass {
        seat: first,
        number: schedulers,
    })?;
    Ok(passes)
}

/// The desk of a new region of `pages` pages, all free, and a pass for each scheduler: pass i may
/// make as many calls as number i of `calls`. All memory is taken here, and it fails only where
/// there is none.
pub fn make_passes(alloc: Global, pages: u32, calls: &List<u32>) -> Result<Start, OutOfMemory>
    requires pages { (1 ≤ pages) × (pages ≤ MAX_PAGES) }
    requires schedulers { (1 ≤ length calls.now.items) × (length calls.now.items ≤ MAX_SCHEDULERS) }
    requires calls { sum_by (λ n. n) calls.now.items ≤ MAX_OPS }
    ensures pages { IfOk result (λ s. s.desk.table.shared.key.pages ≡ pages) }
    ensures calls { IfOk result (λ s. s.desk.table.shared.key.calls.items ≡ calls.now.items) }
    ensures all { IfOk result (λ s. length s.passes.items ≡ length calls.now.items) }
    ensures each { IfOk result (λ s. (k : ℕ) (d : _) → k < length calls.now.items
        → IsFresh s.desk.table.shared.table_id s.desk.table.shared.key (k + 1)
        (slice_index_or calls.now.items k 0) (slice_index_or s.passes.items k d)) }
{
    let mut most = 0;
    for count in calls.as_slice() {
        most += *count;
    }
    let mut own = List::new(alloc);
    own.extend_from_slice(calls.as_slice())?;
    let about = About {
        pages,
        most,
        calls: own,
    };
    let mut slots = Vec::new(alloc);
    slots.push(Ledger::new(alloc, pages, most)?)?;
    let (table, first) = match Table::new(alloc, &[0], slots, &about) {
        Ok(made) => made,
        Err(_) => return Err(OutOfMemory),
    };
    let passes = deal(alloc, &table, first, calls.len() as u32)?;
    Ok(Start {
        desk: Desk { table },
        passes,
    })
}
