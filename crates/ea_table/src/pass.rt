//! A seat at the table, and the steps that its scheduler takes.
ghost use Rattle.std.specs.Prelude.{◌≡◌, ◌≤◌, [], Some, None};
ghost use Rattle.ea_model.specs.Trace.{IsScheduler};
ghost use Rattle.ea_machine.specs.Alike.{IsNode, IsSpot};
ghost use Rattle.ea_machine.specs.Rows.{Done, Give, Got, Head, Push, TakeAll, TakeLink, TakeTry};
ghost use Rattle.ea_machine.specs.Rows as rows;
ghost use Rattle.ea_shared.specs.Calls.{WantsRow};
ghost use Rattle.ea_shared.specs.Links.{told_by};
ghost use Rattle.ea_table.specs.Ruling.{DidRow, IsSingle, acting, actor_in, caller_in};
ghost use Rattle.ea_table.specs.Words as words;

use crate::board::Board;
use crate::places::{head_place, link_place, name_place};
use crate::rule::Steps;
use crate::views::View;
use atomic_table::Seat;
use ea_machine::Node;
use ea_mbc::Mbc;
use ea_model::Spot;
use ea_shared::Link;
use ea_word::{NO_NODE, OLDEST, decode_node, encode_node};

/// A seat with one scheduler. Between its push of a node and the link of it the pass keeps the word
/// that goes into the link: the number of the next older node, or that of the oldest. It has a slot
/// only within a call that hands a content over.
#[derive(Drop)]
pub struct Pass {
    pub seat: Seat<Option<Mbc>, View>,
    pub older: u64,
    ghost bare: { seat.me.1 ≡ [] },
    ghost unclaimed: { (acting seat.me.0).claim ≡ 0 },
    ghost single: { IsSingle seat.me.0 },
    ghost older_is: { older ≡ (acting seat.me.0).older },
}

/// Where the block of a node begins.
pub fn block_spot(node: Option<Node>) -> Option<Spot>
    ensures { result ≡ words.block_spot node }
{
    match node {
        Some(Node::Block { spot, .. }) => Some(spot),
        Some(Node::Carrier { .. }) => None,
        None => None,
    }
}

impl Pass {
    ghost use Rattle.ea_table.specs.Seating.{IsSeatedAt};

    pub(crate) fn take_all(&mut self, board: &Board<'_>, me: u32) -> Option<Node>
        requires seated { IsSeatedAt board.now self.old }
        requires scheduler { IsScheduler board.now.schedulers me }
        requires wanted { WantsRow me TakeAll (caller_in self.old.seat.me.0) }
        ensures seated { self.new.seat.table_id ≡ self.old.seat.table_id }
        ensures row { DidRow me TakeAll (Head result) self.old.seat.me.0 self.new.seat.me.0 }
    {
        let found = board
            .table
            .shared
            .swap::<Steps>(&mut self.seat, head_place(me), NO_NODE);
        decode_node(found)
    }

    pub(crate) fn take_link(&mut self, board: &Board<'_>, me: u32, node: Node) -> Link
        requires seated { IsSeatedAt board.now self.old }
        requires scheduler { IsScheduler board.now.schedulers me }
        requires node { IsNode board.now.schedulers board.now.greatest node }
        requires next { (actor_in self.old.seat.me.0).next ≡ Some node }
        requires wanted { WantsRow me TakeLink (caller_in self.old.seat.me.0) }
        ensures seated { self.new.seat.table_id ≡ self.old.seat.table_id }
        ensures row { DidRow me TakeLink (told_by result) self.old.seat.me.0 self.new.seat.me.0 }
    {
        let place = link_place(board.schedulers, board.greatest, node);
        let found = board
            .table
            .shared
            .swap::<Steps>(&mut self.seat, place, NO_NODE);
        if found == NO_NODE {
            return Link::Rest;
        }
        match decode_node(found) {
            Some(node) => Link::Next { node },
            None => Link::End,
        }
    }

    pub(crate) fn push(&mut self, board: &Board<'_>, me: u32, to: u32, node: Node)
        requires seated { IsSeatedAt board.now self.old }
        requires scheduler { IsScheduler board.now.schedulers me }
        requires target { IsScheduler board.now.schedulers to }
        requires node { IsNode board.now.schedulers board.now.greatest node }
        requires wanted { WantsRow me (Push node to) (caller_in self.old.seat.me.0) }
        ensures seated { self.new.seat.table_id ≡ self.old.seat.table_id }
        ensures row { DidRow me (Push node to) Done self.old.seat.me.0 self.new.seat.me.0 }
    {
        let new = encode_node(node);
        let found = board
            .table
            .shared
            .swap::<Steps>(&mut self.seat, head_place(to), new);
        self.older = if found == NO_NODE { OLDEST } else { found };
    }

    pub(crate) fn link(&mut self, board: &Board<'_>, me: u32, to: u32, node: Node)
        requires seated { IsSeatedAt board.now self.old }
        requires scheduler { IsScheduler board.now.schedulers me }
        requires target { IsScheduler board.now.schedulers to }
        requires node { IsNode board.now.schedulers board.now.greatest node }
        requires wanted { WantsRow me (rows.Link node to) (caller_in self.old.seat.me.0) }
        ensures seated { self.new.seat.table_id ≡ self.old.seat.table_id }
        ensures row { DidRow me (rows.Link node to) Done self.old.seat.me.0 self.new.seat.me.0 }
    {
        let place = link_place(board.schedulers, board.greatest, node);
        board
            .table
            .shared
            .store::<Steps>(&mut self.seat, place, self.older);
    }

    pub(crate) fn give(&mut self, board: &Board<'_>, me: u32, name: u32, spot: Spot)
        requires seated { IsSeatedAt board.now self.old }
        requires scheduler { IsScheduler board.now.schedulers me }
        requires name { (1 ≤ name) × (name ≤ board.now.greatest) }
        requires spot { IsSpot board.now.schedulers spot }
        requires wanted { WantsRow me (Give (record { name = name; spot = spot }))
            (caller_in self.old.seat.me.0) }
        ensures seated { self.new.seat.table_id ≡ self.old.seat.table_id }
        ensures row { DidRow me (Give (record { name = name; spot = spot })) Done
            self.old.seat.me.0 self.new.seat.me.0 }
    {
        let new = encode_node(Node::Block { name, spot });
        let place = name_place(board.schedulers, board.greatest, name);
        board
            .table
            .shared
            .store::<Steps>(&mut self.seat, place, new);
    }

    pub(crate) fn take_try(&mut self, board: &Board<'_>, me: u32, name: u32) -> Option<Spot>
        requires seated { IsSeatedAt board.now self.old }
        requires scheduler { IsScheduler board.now.schedulers me }
        requires name { (1 ≤ name) × (name ≤ board.now.greatest) }
        requires wanted { WantsRow me (TakeTry name) (caller_in self.old.seat.me.0) }
        ensures seated { self.new.seat.table_id ≡ self.old.seat.table_id }
        ensures row { DidRow me (TakeTry name) (Got result) self.old.seat.me.0
            self.new.seat.me.0 }
    {
        let place = name_place(board.schedulers, board.greatest, name);
        let found = board
            .table
            .shared
            .swap::<Steps>(&mut self.seat, place, NO_NODE);
        block_spot(decode_node(found))
    }
}
