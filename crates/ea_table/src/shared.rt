//! The table as a scheduler steps on it.
ghost use Rattle.std.specs.Prelude.{◌≡◌};
ghost use Rattle.ea_table.specs.Seating.{IsSeatedAt};

use crate::board::Board;
use crate::pass::Pass;
use ea_machine::{Node, OwnerWord};
use ea_mbc::Mbc;
use ea_model::Spot;
use ea_shared::{Link, Shared, Tried};

/// The table as one scheduler steps on it: it tells that scheduler.
#[derive(Drop)]
pub struct TableShared<'a, 't> {
    board: &'a Board<'t>,
    pass: Pass,
    ghost seated: { IsSeatedAt board.now pass },
}

impl<'a, 't> TableShared<'a, 't> {
    /// The table as the scheduler of the pass, which is one of this board, steps on it.
    pub fn new(board: &'a Board<'t>, pass: Pass) -> TableShared<'a, 't>
        requires seated { IsSeatedAt board.now pass }
        ensures pass { result.pass ≡ pass }
        ensures board { result.board.now.table.shared.table_id
            ≡ board.now.table.shared.table_id }
    {
        TableShared { board, pass }
    }

    /// Gives the pass back.
    pub fn into_pass(self) -> Pass
        ensures { result ≡ self.entry.pass }
    {
        let TableShared { board: _, pass } = self;
        pass
    }
}

impl<'a, 't> Shared for TableShared<'a, 't> {
    ghost use Rattle.std.specs.Prelude.{◌≡◌};
    ghost use Rattle.std.proofs.Common.{refl, ap, ◌∙◌};
    ghost use Rattle.ea_machine.specs.Setup.{migration, setup_of};
    ghost use Rattle.ea_table.specs.Ruling.{told_in};

    type Content = Mbc;

    ghost told = { λ t. told_in t.pass.seat.me.0 };

    ghost stays = { λ x y. (y.board.now.table.shared.table_id ≡ x.board.now.table.shared.table_id)
        × (y.pass.seat.me.0.config ≡ x.pass.seat.me.0.config)
        × (y.pass.seat.me.0.trace ≡ x.pass.seat.me.0.trace) };

    ghost stays_so = { λ _. (refl, refl, refl) };

    ghost stays_told = { λ x y h. record {
      schedulers = ap (λ c. c.schedulers) h.1;
      greatest = ap (λ t. t.greatest) h.2;
      migrates = ap (λ c. migration (setup_of c y.pass.seat.me.0.trace)) h.1
          ∙ ap (λ t. migration (setup_of x.pass.seat.me.0.config t)) h.2;
    } };

    fn take_all(&mut self, me: u32) -> Option<Node> {
        self.pass.take_all(self.board, me)
    }

    fn take_link(&mut self, me: u32, node: Node) -> Link {
        self.pass.take_link(self.board, me, node)
    }

    fn look(&mut self, me: u32, carrier: u32) -> OwnerWord {
        self.pass.look(self.board, me, carrier)
    }

    fn busy_try(&mut self, me: u32, carrier: u32, seen: OwnerWord) -> Tried<Mbc> {
        self.pass.busy_try(self.board, me, carrier, seen)
    }

    fn settle_pooled(&mut self, me: u32, carrier: u32, content: Mbc, largest: u32) {
        self.pass
            .settle_pooled(self.board, me, carrier, content, largest);
    }

    fn settle_employed(&mut self, me: u32, carrier: u32) {
        self.pass.settle_employed(self.board, me, carrier);
    }

    fn abandon(&mut self, me: u32, carrier: u32, content: Mbc, largest: u32) {
        self.pass.abandon(self.board, me, carrier, content, largest);
    }

    fn fetch_try(&mut self, me: u32, carrier: u32, seen: OwnerWord) -> Tried<Mbc> {
        self.pass.fetch_try(self.board, me, carrier, seen)
    }

    fn create(&mut self, me: u32, carrier: u32) {
        self.pass.create(self.board, me, carrier);
    }

    fn send_home(&mut self, me: u32, carrier: u32, content: Mbc, owner: u32) {
        self.pass.send_home(self.board, me, carrier, content, owner);
    }

    fn clear_own(&mut self, me: u32, carrier: u32) {
        self.pass.clear_own(self.board, me, carrier);
    }

    fn clear_returned(&mut self, me: u32, carrier: u32) -> Mbc {
        self.pass.clear_returned(self.board, me, carrier)
    }

    fn push(&mut self, me: u32, to: u32, node: Node) {
        self.pass.push(self.board, me, to, node);
    }

    fn link(&mut self, me: u32, to: u32, node: Node) {
        self.pass.link(self.board, me, to, node);
    }

    fn give(&mut self, me: u32, name: u32, spot: Spot) {
        self.pass.give(self.board, me, name, spot);
    }

    fn take_try(&mut self, me: u32, name: u32) -> Option<Spot> {
        self.pass.take_try(self.board, me, name)
    }
}
