//! The steps on carriers that a scheduler takes at its seat.
//!
//! A content lies in the slot of its carrier while no scheduler has it. Who puts it there has
//! claimed the slot before, and the step that changes the owner word gives the slot back. Who wins
//! the carrier takes the slot in the step that changes the word, takes the content out, and gives
//! the slot back empty. So a seat has no slot between its calls, and each call takes one step of
//! its scheduler: claiming a slot, and giving it back empty, are looks that change no word.
ghost use Rattle.std.specs.Prelude.{◌≡◌, [], None, Some};
ghost use Rattle.ea_model.specs.Content.{Content};
ghost use Rattle.ea_model.specs.Instance.{owner_of};
ghost use Rattle.ea_model.specs.Trace.{IsScheduler};
ghost use Rattle.ea_machine.specs.Rows.{Abandon, BusyTry, Clear, Create, Done, FetchTry, Home};
ghost use Rattle.ea_machine.specs.Rows.{Look, Saw, SendHome, Settle};
ghost use Rattle.ea_shared.specs.Calls.{WantsRow};
ghost use Rattle.ea_shared.specs.Carriers.{IsCarrier, IsCollecting, IsEmptied, IsFor, IsLeaving};
ghost use Rattle.ea_shared.specs.Carriers.{IsPooled, IsPooledBy, SettlesEmptied};
ghost use Rattle.ea_table.specs.Handing.{Brings, HasSlot, IsTry, Stores, row_in, told};
ghost use Rattle.ea_table.specs.Ruling.{DidRow, Took, acting, caller_in, claimed};
ghost use Rattle.ea_table.specs.Seating.{IsAt};
ghost use Rattle.ea_word.specs.Codes.{IsShown, owner_code};

use crate::board::Board;
use crate::pass::Pass;
use crate::places::{owner_place, slot_place};
use crate::rule::{Claims, Steps, Yields};
use crate::views::View;
use atomic_table::Seat;
use ea_machine::OwnerWord;
use ea_mbc::Mbc;
use ea_shared::Tried;
use ea_word::{decode, encode};

/// Stores the owner word of a carrier.
fn store_owner(board: &Board<'_>, seat: &mut Seat<Option<Mbc>, View>, carrier: u32, word: OwnerWord)
    requires seated { IsAt board.now seat.old.table_id seat.old.me.0 }
    requires carrier { IsCarrier board.now.schedulers carrier }
    requires shown { IsShown word }
    requires stores { Stores carrier word seat.old.me }
    ensures seated { seat.new.table_id ≡ seat.old.table_id }
    ensures took { Took seat.old.me (owner_code word) seat.new.me }
{
    let place = owner_place(board.schedulers, board.greatest, carrier);
    board.table.shared.store::<Steps>(seat, place, encode(word));
}

/// Takes the content out of the slot of a carrier, which the seat has, and gives the slot back.
fn take_out(board: &Board<'_>, seat: &mut Seat<Option<Mbc>, View>, carrier: u32) -> Mbc
    requires seated { IsAt board.now seat.old.table_id seat.old.me.0 }
    requires carrier { IsCarrier board.now.schedulers carrier }
    requires slot { (x : Content) × HasSlot carrier (Some x) seat.old.me }
    ensures seated { seat.new.table_id ≡ seat.old.table_id }
    ensures content { HasSlot carrier (Some result) seat.old.me }
    ensures seat { seat.new.me ≡ (claimed seat.old.me.0 0, []) }
{
    let found = board.table.shared.exchange(seat, slot_place(carrier), None);
    let place = owner_place(board.schedulers, board.greatest, carrier);
    board.table.shared.load::<Yields>(seat, place);
    match found {
        Some(content) => content,
        None => unreachable!(),
    }
}

impl Pass {
    ghost use Rattle.ea_table.specs.Seating.{IsSeatedAt};

    /// Puts the content of a carrier that the scheduler has into the carrier's slot, and stores the
    /// owner word.
    fn bring(&mut self, board: &Board<'_>, carrier: u32, content: Mbc, word: OwnerWord)
        requires seated { IsSeatedAt board.now self.old }
        requires carrier { IsCarrier board.now.schedulers carrier }
        requires shown { IsShown word }
        requires brings { Brings carrier content word self.old.seat.me.0 }
        ensures seated { self.new.seat.table_id ≡ self.old.seat.table_id }
        ensures row { DidRow (acting self.old.seat.me.0).number (row_in self.old.seat.me.0) Done
            self.old.seat.me.0 self.new.seat.me.0 }
    {
        let place = owner_place(board.schedulers, board.greatest, carrier);
        board.table.shared.load::<Claims>(&mut self.seat, place);
        board
            .table
            .shared
            .exchange(&mut self.seat, slot_place(carrier), Some(content));
        store_owner(board, &mut self.seat, carrier, word);
    }

    /// Stores a word, if the owner word is still the one seen: then the content comes to the
    /// caller.
    fn try_for(
        &mut self,
        board: &Board<'_>,
        carrier: u32,
        seen: OwnerWord,
        word: OwnerWord,
    ) -> Tried<Mbc>
        requires seated { IsSeatedAt board.now self.old }
        requires carrier { IsCarrier board.now.schedulers carrier }
        requires seen { IsPooled board.now.schedulers seen }
        requires shown { IsShown word }
        requires wanted { IsTry (acting self.old.seat.me.0).number (row_in self.old.seat.me.0)
            carrier seen word }
        ensures seated { self.new.seat.table_id ≡ self.old.seat.table_id }
        ensures row { DidRow (acting self.old.seat.me.0).number (row_in self.old.seat.me.0)
            (told result) self.old.seat.me.0 self.new.seat.me.0 }
    {
        let place = owner_place(board.schedulers, board.greatest, carrier);
        let old = encode(seen);
        let found = board
            .table
            .shared
            .compare_exchange::<Steps>(&mut self.seat, place, old, encode(word));
        if found == old {
            let content = take_out(board, &mut self.seat, carrier);
            return Tried::Won { content };
        }
        match decode(found) {
            Some(word) => Tried::Lost { word },
            None => unreachable!(),
        }
    }

    pub(crate) fn look(&mut self, board: &Board<'_>, me: u32, carrier: u32) -> OwnerWord
        requires seated { IsSeatedAt board.now self.old }
        requires scheduler { IsScheduler board.now.schedulers me }
        requires carrier { IsCarrier board.now.schedulers carrier }
        requires wanted { WantsRow me (Look carrier) (caller_in self.old.seat.me.0) }
        ensures seated { self.new.seat.table_id ≡ self.old.seat.table_id }
        ensures row { DidRow me (Look carrier) (Saw result) self.old.seat.me.0
            self.new.seat.me.0 }
    {
        let place = owner_place(board.schedulers, board.greatest, carrier);
        let found = board.table.shared.load::<Steps>(&mut self.seat, place);
        match decode(found) {
            Some(word) => word,
            None => unreachable!(),
        }
    }

    pub(crate) fn busy_try(
        &mut self,
        board: &Board<'_>,
        me: u32,
        carrier: u32,
        seen: OwnerWord,
    ) -> Tried<Mbc>
        requires seated { IsSeatedAt board.now self.old }
        requires scheduler { IsScheduler board.now.schedulers me }
        requires carrier { IsCarrier board.now.schedulers carrier }
        requires seen { IsPooledBy me seen }
        requires wanted { WantsRow me (BusyTry carrier seen) (caller_in self.old.seat.me.0) }
        ensures seated { self.new.seat.table_id ≡ self.old.seat.table_id }
        ensures row { DidRow me (BusyTry carrier seen) (told result) self.old.seat.me.0
            self.new.seat.me.0 }
    {
        self.try_for(board, carrier, seen, OwnerWord::Busy { instance: me })
    }

    pub(crate) fn fetch_try(
        &mut self,
        board: &Board<'_>,
        me: u32,
        carrier: u32,
        seen: OwnerWord,
    ) -> Tried<Mbc>
        requires seated { IsSeatedAt board.now self.old }
        requires scheduler { IsScheduler board.now.schedulers me }
        requires carrier { IsCarrier board.now.schedulers carrier }
        requires seen { IsPooled board.now.schedulers seen }
        requires wanted { WantsRow me (FetchTry carrier seen) (caller_in self.old.seat.me.0) }
        ensures seated { self.new.seat.table_id ≡ self.old.seat.table_id }
        ensures row { DidRow me (FetchTry carrier seen) (told result) self.old.seat.me.0
            self.new.seat.me.0 }
    {
        self.try_for(board, carrier, seen, OwnerWord::Employed { instance: me })
    }

    pub(crate) fn settle_pooled(
        &mut self,
        board: &Board<'_>,
        me: u32,
        carrier: u32,
        content: Mbc,
        largest: u32,
    )
        requires seated { IsSeatedAt board.now self.old }
        requires scheduler { IsScheduler board.now.schedulers me }
        requires carrier { IsCarrier board.now.schedulers carrier }
        requires content { IsFor carrier largest content }
        requires wanted { WantsRow me (Settle content) (caller_in self.old.seat.me.0) }
        ensures seated { self.new.seat.table_id ≡ self.old.seat.table_id }
        ensures row { DidRow me (Settle content) Done self.old.seat.me.0 self.new.seat.me.0 }
    {
        let word = OwnerWord::Pooled {
            instance: me,
            largest,
        };
        self.bring(board, carrier, content, word);
    }

    pub(crate) fn settle_employed(&mut self, board: &Board<'_>, me: u32, carrier: u32)
        requires seated { IsSeatedAt board.now self.old }
        requires scheduler { IsScheduler board.now.schedulers me }
        requires carrier { IsCarrier board.now.schedulers carrier }
        requires wanted { SettlesEmptied me carrier (caller_in self.old.seat.me.0) }
        ensures seated { self.new.seat.table_id ≡ self.old.seat.table_id }
        ensures row { (x : Content) → IsEmptied carrier x
            → WantsRow me (Settle x) (caller_in self.old.seat.me.0)
            → DidRow me (Settle x) Done self.old.seat.me.0 self.new.seat.me.0 }
    {
        let word = OwnerWord::Employed { instance: me };
        store_owner(board, &mut self.seat, carrier, word);
    }

    pub(crate) fn abandon(
        &mut self,
        board: &Board<'_>,
        me: u32,
        carrier: u32,
        content: Mbc,
        largest: u32,
    )
        requires seated { IsSeatedAt board.now self.old }
        requires scheduler { IsScheduler board.now.schedulers me }
        requires carrier { IsCarrier board.now.schedulers carrier }
        requires content { IsFor carrier largest content }
        requires wanted { WantsRow me (Abandon content) (caller_in self.old.seat.me.0) }
        ensures seated { self.new.seat.table_id ≡ self.old.seat.table_id }
        ensures row { DidRow me (Abandon content) Done self.old.seat.me.0 self.new.seat.me.0 }
    {
        let word = OwnerWord::Pooled {
            instance: me,
            largest,
        };
        self.bring(board, carrier, content, word);
    }

    pub(crate) fn create(&mut self, board: &Board<'_>, me: u32, carrier: u32)
        requires seated { IsSeatedAt board.now self.old }
        requires scheduler { IsScheduler board.now.schedulers me }
        requires carrier { IsCarrier board.now.schedulers carrier }
        requires wanted { WantsRow me (Create carrier) (caller_in self.old.seat.me.0) }
        ensures seated { self.new.seat.table_id ≡ self.old.seat.table_id }
        ensures row { DidRow me (Create carrier) Done self.old.seat.me.0 self.new.seat.me.0 }
    {
        let word = OwnerWord::Employed { instance: me };
        store_owner(board, &mut self.seat, carrier, word);
    }

    pub(crate) fn send_home(
        &mut self,
        board: &Board<'_>,
        me: u32,
        carrier: u32,
        content: Mbc,
        owner: u32,
    )
        requires seated { IsSeatedAt board.now self.old }
        requires scheduler { IsScheduler board.now.schedulers me }
        requires carrier { IsCarrier board.now.schedulers carrier }
        requires content { IsEmptied carrier content }
        requires owner { owner ≡ owner_of carrier }
        requires wanted { WantsRow me (SendHome content) (caller_in self.old.seat.me.0) }
        ensures seated { self.new.seat.table_id ≡ self.old.seat.table_id }
        ensures row { DidRow me (SendHome content) Done self.old.seat.me.0 self.new.seat.me.0 }
    {
        let word = OwnerWord::Returning { instance: owner };
        self.bring(board, carrier, content, word);
    }

    pub(crate) fn clear_own(&mut self, board: &Board<'_>, me: u32, carrier: u32)
        requires seated { IsSeatedAt board.now self.old }
        requires scheduler { IsScheduler board.now.schedulers me }
        requires carrier { IsCarrier board.now.schedulers carrier }
        requires leaves { IsLeaving (caller_in self.old.seat.me.0) }
        requires wanted { WantsRow me (Clear carrier) (caller_in self.old.seat.me.0) }
        ensures seated { self.new.seat.table_id ≡ self.old.seat.table_id }
        ensures row { DidRow me (Clear carrier) (Home None) self.old.seat.me.0
            self.new.seat.me.0 }
    {
        store_owner(board, &mut self.seat, carrier, OwnerWord::Absent);
    }

    pub(crate) fn clear_returned(&mut self, board: &Board<'_>, me: u32, carrier: u32) -> Mbc
        requires seated { IsSeatedAt board.now self.old }
        requires scheduler { IsScheduler board.now.schedulers me }
        requires carrier { IsCarrier board.now.schedulers carrier }
        requires collects { IsCollecting carrier (caller_in self.old.seat.me.0) }
        requires wanted { WantsRow me (Clear carrier) (caller_in self.old.seat.me.0) }
        ensures seated { self.new.seat.table_id ≡ self.old.seat.table_id }
        ensures row { DidRow me (Clear carrier) (Home (Some result))
            self.old.seat.me.0 self.new.seat.me.0 }
    {
        store_owner(board, &mut self.seat, carrier, OwnerWord::Absent);
        take_out(board, &mut self.seat, carrier)
    }
}
