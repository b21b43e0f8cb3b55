//! The region with its history, as one thread has it.
ghost use Rattle.std.specs.Prelude.{◌≡◌, ℕ, ◌+◌, ◌<◌, ◌≤◌, [], ◌∷◌, ◌++◌, IfOk, length, sum_by};
ghost use Rattle.std.specs.Prelude.{vec_capacity, vec_len};
ghost use Rattle.ea_model.specs.Region.{Laid};
ghost use Rattle.ea_segments.specs.declared.calls.Reply.TheVariants.{At};
ghost use Rattle.ea_model.specs.declared.units.TheConstants.{MAX_OPS};
ghost use Rattle.ea_segments.specs.declared.calls.TheConstants.{MAX_SEGMENTS};
ghost use Rattle.ea_segments.specs.Histories.{IsLegal, next, oldest, reply_at, reply_to_back};
ghost use Rattle.ea_segments.specs.Histories.{reply_to_take, segments, standing, stands};
ghost use Rattle.ea_segments.specs.Requests.{IsRequest, call_of};

use crate::calls::{Book, Call, MAX_SEGMENTS, Reply, Request, call_of};
use crate::held::{Held, lowest_start, oldest_of, pages_of};
use ea_model::keyed::{enter_within, take_out};
use ea_model::{List, OutOfMemory};
use std::alloc::Global;
use std::marker::Model;

/// A region of pages with the calls that were made on it. Contracts see it as how many pages it
/// has, for how many calls there is room, and the calls so far: each reply is the one that one
/// thread gets at that point.
#[derive(Drop)]
pub struct Ledger {
    pages: u32,
    most: u32,
    held: Vec<Held>,
    history: List<Call>,
}

impl Model for Ledger {
    ghost use Rattle.std.specs.Prelude.{◌≡◌, ◌+◌, ◌≤◌, length, vec_capacity};
    ghost use Rattle.ea_model.specs.declared.units.TheConstants.{MAX_OPS};
    ghost use Rattle.ea_segments.specs.declared.calls.TheConstants.{MAX_SEGMENTS};
    ghost use Rattle.ea_segments.specs.Histories.{IsLegal, stands};
    ghost use Rattle.ea_segments.specs.Accounts.{Account};

    ghost Value = { Account };

    ghost view = { λ l. record { pages = l.pages; most = l.most; history = l.history.items } };

    ghost invariant = { λ l. record {
      few : l.most ≤ MAX_OPS;
      room : l.most ≤ length l.history.items + l.history.room;
      held_room : MAX_SEGMENTS ≤ vec_capacity l.held;
      held_is : l.held.items ≡ (stands l.history.items).held;
      legal : IsLegal l.pages l.history.items;
    } };
}

/// What a call leaves of the taken segments, by its reply. That many calls came before it.
fn carry_out(held: &mut Vec<Held>, call: Call, turn: u32)
    requires laid { (total : ℕ) × Laid 0 total (segments held.old.items) }
    requires room { MAX_SEGMENTS ≤ vec_capacity held.old }
    requires few { (at : ℕ) → call.reply ≡ At at → vec_len held.old < MAX_SEGMENTS }
    ensures held { held.new.items ≡ (next (standing held.old.items turn) call).held }
    ensures capacity { vec_capacity held.new ≡ vec_capacity held.old }
{
    match call.reply {
        Reply::At { start } => {
            let taken = Held {
                start,
                pages: call.pages,
                scheduler: call.scheduler,
                name: call.name,
                turn,
            };
            enter_within(taken, held);
        }
        Reply::Done => {
            if let Some(oldest) = oldest_of(call.scheduler, call.name, held) {
                take_out(oldest.start, held);
            }
        }
        Reply::NoRun | Reply::Full | Reply::Skipped => {}
    }
}

impl Ledger {
    /// A region of `pages` pages, all free, with room for that many calls.
    pub(crate) fn new(alloc: Global, pages: u32, most: u32) -> Result<Ledger, OutOfMemory>
        requires { most ≤ MAX_OPS }
        ensures { IfOk result (λ l. l ≡ record { pages = pages; most = most; history = [] }) }
    {
        let mut history = List::new(alloc);
        history.reserve(most as usize)?;
        Ok(Ledger {
            pages,
            most,
            held: Vec::with_capacity(alloc, MAX_SEGMENTS as usize)?,
            history,
        })
    }

    /// Where that many pages are to be taken, or why they are not.
    fn reply_to_take(&self, pages: u32) -> Reply
        ensures { result ≡ reply_to_take self.now.pages pages (stands self.now.history).held }
    {
        if self.held.len() >= MAX_SEGMENTS as usize {
            return Reply::Full;
        }
        match lowest_start(pages, self.pages, &self.held) {
            Some(start) => Reply::At { start },
            None => Reply::NoRun,
        }
    }

    /// Whether there is a segment of that name to give back.
    fn reply_to_back(&self, scheduler: u32, name: u32) -> Reply
        ensures { result ≡ reply_to_back (oldest scheduler name (stands self.now.history).held) }
    {
        match oldest_of(scheduler, name, &self.held) {
            Some(_) => Reply::Done,
            None => Reply::Skipped,
        }
    }

    /// Adds a call with its reply, which is the one that one thread gets now.
    fn add(&mut self, call: Call)
        requires legal { call.reply ≡ reply_at self.old.pages (stands self.old.history) call }
        requires room { length self.old.history < self.old.most }
        ensures added { self.new ≡ record self.old { history = self.old.history ++ call ∷ [] } }
        ensures legal { IsLegal self.new.pages self.new.history }
    {
        let turn = self.history.len() as u32;
        carry_out(&mut self.held, call, turn);
        self.history.push_within(call);
    }

    /// The reply that one thread gets now.
    fn reply_to(&self, scheduler: u32, request: Request) -> Reply
        requires { IsRequest request }
        ensures { result ≡ reply_at self.now.pages (stands self.now.history)
            (call_of scheduler request result) }
    {
        match request {
            Request::Take { pages, .. } => self.reply_to_take(pages),
            Request::Back { name } => self.reply_to_back(scheduler, name),
        }
    }

    /// Answers a request of a scheduler, and adds the call. Pages that are asked for are those of
    /// the lowest free run that has that many; of several segments of a name the one that the
    /// scheduler took first goes back.
    pub(crate) fn answer(&mut self, scheduler: u32, request: Request) -> Reply
        requires is { IsRequest request }
        requires room { length self.old.history < self.old.most }
        ensures added { self.new ≡ record self.old {
          history = self.old.history ++ call_of scheduler request result ∷ [];
        } }
        ensures legal { IsLegal self.new.pages self.new.history }
    {
        let reply = self.reply_to(scheduler, request);
        self.add(call_of(scheduler, request, reply));
        reply
    }

    /// Its history, and what stands after it.
    pub(crate) fn into_book(self) -> Book
        ensures history { result.history.items ≡ self.history }
        ensures legal { IsLegal self.pages self.history }
        ensures segments { result.segments ≡ length (stands self.history).held }
        ensures pages { result.pages ≡ sum_by (λ h. h.pages) (stands self.history).held }
        ensures free { result.free + result.pages ≡ self.pages }
    {
        let segments = self.held.len() as u32;
        let pages = pages_of(self.pages, &self.held);
        Book {
            history: self.history,
            segments,
            pages,
            free: self.pages - pages,
        }
    }
}
