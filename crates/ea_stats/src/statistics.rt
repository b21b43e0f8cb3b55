//! The greatest figures, and what a report says of them.
ghost use Rattle.std.specs.Prelude.{◌≡◌};
ghost use Rattle.ea_machine.specs.Statistics.{greater, report, restarted, seen, triple, unseen};

use ea_model::{Figures, Report, Triple};
use std::marker::Model;

/// The greatest figures that were observed of an instance's carriers, since the last report and
/// ever. An instance has one for its main and multiblock carriers, and one for its singleblock
/// carriers. Contracts see it as these two; it takes no memory, and no call fails.
#[derive(Drop)]
pub struct Stats {
    last: Figures,
    ever: Figures,
}

impl Model for Stats {
    ghost use Rattle.ea_machine.specs.Actor.{Stat};

    ghost Value = { Stat };

    ghost view = { λ s. record { last = s.last; ever = s.ever } };
}

/// The greater of each figure.
fn greater(a: Figures, b: Figures) -> Figures
    ensures { result ≡ greater a b }
{
    Figures {
        blocks: a.blocks.max(b.blocks),
        blocks_size: a.blocks_size.max(b.blocks_size),
        carriers: a.carriers.max(b.carriers),
        carriers_size: a.carriers_size.max(b.carriers_size),
    }
}

/// A figure as it is, and its maximum since the last report and ever.
fn figure(now: u64, last: u64, ever: u64) -> Triple
    ensures { result ≡ triple now last ever }
{
    Triple { now, last, ever }
}

impl Stats {
    /// The statistics with one observation: the figures as they are when the instance is made.
    pub fn new(now: Figures) -> Stats
        ensures { result ≡ seen now unseen }
    {
        Stats {
            last: now,
            ever: now,
        }
    }

    /// Observes the figures as they are.
    pub fn observe(&mut self, now: Figures)
        ensures { self.new ≡ seen now self.old }
    {
        self.last = greater(self.last, now);
        self.ever = greater(self.ever, now);
    }

    /// Reports the figures as they are, the greatest since the last report and the greatest ever.
    /// It observes them first, so both count its own moment. From then on the greatest since the
    /// last report begin at the figures of this one.
    pub fn report(&mut self, now: Figures) -> Report
        ensures told { result ≡ report now (seen now self.old) }
        ensures restarted { self.new ≡ restarted now (seen now self.old) }
    {
        self.observe(now);
        let (last, ever) = (self.last, self.ever);
        self.last = now;
        Report {
            blocks: figure(now.blocks, last.blocks, ever.blocks),
            blocks_size: figure(now.blocks_size, last.blocks_size, ever.blocks_size),
            carriers: figure(now.carriers, last.carriers, ever.carriers),
            carriers_size: figure(now.carriers_size, last.carriers_size, ever.carriers_size),
        }
    }
}
