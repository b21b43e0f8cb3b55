//! The end of a region.
ghost use Rattle.std.specs.Prelude.{◌≡◌, ℕ, ◌+◌, ◌<◌, ◌≤◌, ◌++◌, false, All, length, map};
ghost use Rattle.std.specs.Prelude.{slice_index_or, sum_by};
ghost use Rattle.ea_segments.specs.Ruling.{acting};
ghost use Rattle.ea_segments.specs.Histories.{IsByOneOf, IsLegal, IsSoundThroughout, StartsWith};
ghost use Rattle.ea_segments.specs.Histories.{calls_of, stands};
ghost use Rattle.ea_segments.specs.Seating.{IsAmong, IsPassOf, known};

use crate::calls::Book;
use crate::desk::Desk;
use crate::ledger::Ledger;
use crate::pass::Pass;
use crate::rule::{Locked, TakesIn};
use crate::views::{About, View};
use atomic_table::{Seat, Table};
use ea_model::List;
use std::alloc::Global;

/// One seat, which has taken in the others.
fn take_in(
    table: &Table<Ledger, View, About, Locked, Global>,
    mut seat: Seat<Ledger, View>,
    others: Vec<Pass>,
) -> Seat<Ledger, View>
    requires words { 0 < table.now.shared.table_id.words }
    requires seated { seat.table_id ≡ table.now.shared.table_id }
    requires idle { seat.me.0.holds ≡ false }
    requires others { All (λ p. p.seat.table_id ≡ table.now.shared.table_id) others.items }
    ensures seated { result.table_id ≡ table.now.shared.table_id }
    ensures view { result.me.0 ≡ record {
      holds = false;
      seated = seat.me.0.seated ++ map (λ p. acting p.seat.me.0) others.items;
    } }
{
    for other in others {
        let Pass {
            seat: theirs,
            number: _,
        } = other;
        table.shared.join_seat::<TakesIn>(&mut seat, theirs);
    }
    seat
}

/// The book of a region whose passes are all back, each once: the calls that were made on it. Each
/// reply is the one that one thread gets at that point; at each point the segments that are taken
/// have no page in common, and each goes back once at most.
pub fn close(desk: Desk, passes: List<Pass>) -> Book
    requires some { 1 ≤ length passes.items }
    requires all { length passes.items ≡ length desk.table.shared.key.calls.items }
    requires theirs { All (IsPassOf desk) passes.items }
    requires once { (i : ℕ) → 1 ≤ i → i ≤ length passes.items → IsAmong i passes.items }
    ensures legal { IsLegal desk.table.shared.key.pages result.history.items }
    ensures sound { IsSoundThroughout desk.table.shared.key.pages result.history.items }
    ensures seen { All (λ p. StartsWith result.history.items (known p).seen) passes.items }
    ensures mine { All (λ p. calls_of (known p).number result.history.items ≡ (known p).mine)
        passes.items }
    ensures theirs { All (IsByOneOf (length passes.items)) result.history.items }
    ensures segments { result.segments ≡ length (stands result.history.items).held }
    ensures pages { result.pages ≡ sum_by (λ h. h.pages) (stands result.history.items).held }
    ensures free { result.free + result.pages ≡ desk.table.shared.key.pages }
{
    let mut others = passes.into_vec();
    let Some(last) = others.pop() else {
        unreachable!()
    };
    let Pass { seat, number: _ } = last;
    let seat = take_in(&desk.table, seat, others);
    let Desk { table } = desk;
    let mut closed = table.close_with(seat);
    let ledger = closed.take(0);
    closed.free();
    ledger.into_book()
}
