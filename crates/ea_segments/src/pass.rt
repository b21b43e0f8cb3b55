//! A scheduler's pass, and the calls that it makes with it.
ghost use Rattle.std.specs.Prelude.{◌≡◌, ◌≢◌, ◌<◌, ◌≤◌, false, [], ◌∷◌};
ghost use Rattle.ea_segments.specs.Ruling.{IsSingle, Won, acting};

use crate::calls::{Reply, Request};
use crate::desk::Desk;
use crate::ledger::Ledger;
use crate::rule::{Ends, Tries};
use crate::views::View;
use atomic_table::Seat;
use std::sync::Wait;
use std::thread;

/// A seat with one scheduler, which has the lock only within a call.
#[derive(Drop)]
pub struct Pass {
    pub seat: Seat<Ledger, View>,
    pub number: u32,
    ghost bare: { seat.me.1 ≡ [] },
    ghost idle: { seat.me.0.holds ≡ false },
    ghost single: { IsSingle seat.me.0 },
    ghost number_is: { number ≡ (acting seat.me.0).number },
}

/// Tries for the lock until it is won.
fn lock<W: Wait>(wait: &W, desk: &Desk, seat: &mut Seat<Ledger, View>, number: u32)
    requires seated { seat.old.table_id ≡ desk.now.table.shared.table_id }
    requires bare { seat.old.me.1 ≡ [] }
    requires idle { seat.old.me.0.holds ≡ false }
    requires single { IsSingle seat.old.me.0 }
    requires number { number ≡ (acting seat.old.me.0).number }
    ensures seated { seat.new.table_id ≡ seat.old.table_id }
    ensures won { Won seat.old.me seat.new.me }
{
    for _ in wait.forever() {
        let found = desk
            .table
            .shared
            .compare_exchange::<Tries>(seat, 0, 0, u64::from(number));
        if found == 0 {
            return;
        }
        thread::yield_now();
    }
    unreachable!()
}

impl Pass {
    ghost use Rattle.ea_segments.specs.declared.calls.Call.{Call};
    ghost use Rattle.ea_segments.specs.Requests.{IsRequest, call_of};
    ghost use Rattle.ea_segments.specs.Seating.{Called, IsPassOf, known};

    /// Makes a request while it has the lock.
    fn ask<W: Wait>(&mut self, wait: &W, desk: &Desk, request: Request) -> Reply
        requires seated { IsPassOf desk.now self.old }
        requires left { 1 ≤ (known self.old).left }
        requires is { IsRequest request }
        ensures seated { self.new.seat.table_id ≡ self.old.seat.table_id }
        ensures called { Called (known self.old) (known self.new)
            (call_of (known self.old).number request result) }
    {
        lock(wait, desk, &mut self.seat, self.number);
        let reply = self
            .seat
            .slot_mut(&desk.table.shared, 0)
            .answer(self.number, request);
        desk.table.shared.store::<Ends>(&mut self.seat, 0, 0);
        reply
    }

    /// Asks for a segment of `pages` pages under a name: the reply is where it begins, or why none
    /// was taken. It waits for the lock, and takes no memory.
    pub fn take<W: Wait>(&mut self, wait: &W, desk: &Desk, name: u32, pages: u32) -> Reply
        requires seated { IsPassOf desk.now self.old }
        requires left { 1 ≤ (known self.old).left }
        requires some { 1 ≤ pages }
        ensures seated { self.new.seat.table_id ≡ self.old.seat.table_id }
        ensures called { Called (known self.old) (known self.new) (record {
          scheduler = (known self.old).number;
          name = name;
          pages = pages;
          reply = result;
        }) }
    {
        self.ask(wait, desk, Request::Take { name, pages })
    }

    /// Gives the segment back that the scheduler took under a name: of several the one that it took
    /// first. The reply is Done, or Skipped where there is none. It waits for the lock, and takes
    /// no memory.
    pub fn back<W: Wait>(&mut self, wait: &W, desk: &Desk, name: u32) -> Reply
        requires seated { IsPassOf desk.now self.old }
        requires left { 1 ≤ (known self.old).left }
        ensures seated { self.new.seat.table_id ≡ self.old.seat.table_id }
        ensures called { Called (known self.old) (known self.new) (record {
          scheduler = (known self.old).number;
          name = name;
          pages = 0;
          reply = result;
        }) }
    {
        self.ask(wait, desk, Request::Back { name })
    }
}
