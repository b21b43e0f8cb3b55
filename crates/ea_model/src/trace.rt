//! A trace: what each scheduler is to do, and whose turn it is.
ghost use Rattle.std.specs.Prelude.{◌≡◌};
ghost use Rattle.ea_model.specs.Trace as traces;

use crate::lists::List;
use crate::operations::Op;
use crate::settings::Letter;

/// Turns of one scheduler in a row.
#[derive(Debug, Clone, Copy, PartialEq, Eq)]
pub struct Turns {
    /// The scheduler, from 1.
    pub scheduler: u32,
    /// How many turns, 1 to 100000000.
    pub count: u32,
}

/// Where a scheduler stops for good, if its text isn't done before.
#[derive(Debug, Clone, Copy, PartialEq, Eq)]
pub struct Stop {
    /// The scheduler, from 1.
    pub scheduler: u32,
    /// After how many of its own steps, 0 to 100000000.
    pub steps: u32,
}

/// How the texts of a trace come about, and how they run.
#[derive(Drop)]
pub enum Mode {
    /// Each scheduler has a thread of its own.
    Threads,
    /// The schedulers take these turns, and then each runs to its end or its stop. There are
    /// 100000000 turns at most.
    Schedule { turns: List<Turns> },
    /// Each scheduler has `count` operations, which follow from the seed and its number. The seed
    /// is 0 to 2147483647.
    Generated { seed: u32, count: u32 },
}

impl Mode {
    /// Whether a trace of this mode has a schedule of its own.
    pub fn is_scheduled(&self) -> bool
        ensures { result ≡ traces.is_scheduled self.now }
    {
        match self {
            Mode::Schedule { .. } => true,
            Mode::Threads | Mode::Generated { .. } => false,
        }
    }

    /// The turns of a schedule; another mode has none.
    pub fn turns_of(&self) -> &[Turns]
        ensures { result.now ≡ traces.turns_of self.now }
    {
        match self {
            Mode::Schedule { turns } => turns.as_slice(),
            Mode::Threads | Mode::Generated { .. } => &[],
        }
    }
}

/// What the schedulers are to do.
#[derive(Drop)]
pub struct Trace {
    /// The allocator whose settings hold.
    pub letter: Letter,
    /// The operations of each scheduler in order, scheduler 1's first. A generated trace has none
    /// before they are made.
    pub texts: List<List<Op>>,
    /// The schedulers that stop, each once at most. In a generated trace none does.
    pub stops: List<Stop>,
    /// How the texts run.
    pub mode: Mode,
    /// The greatest name of an operation, 0 where there is none.
    pub greatest: u32,
}
