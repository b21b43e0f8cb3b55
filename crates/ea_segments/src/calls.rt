//! Calls on the region: what they ask for, and what they answer.
ghost use Rattle.std.specs.Prelude.{◌≡◌};
ghost use Rattle.ea_segments.specs.Requests.{call_of};

use ea_model::List;

/// The most segments that are taken at once.
pub const MAX_SEGMENTS: u32 = 1024;

/// The value of the constant, so that another is refused.
pub fn constants()
    ensures segments { MAX_SEGMENTS ≡ 1024 }
{}

/// What a call asks for. Names are the callers' own; the segments of a name are those of a
/// scheduler.
#[derive(Debug, Clone, Copy, PartialEq, Eq)]
pub enum Request {
    /// A segment of that many pages, one at least, under a name.
    Take { name: u32, pages: u32 },
    /// The segment of a name back: of several the one that was taken first.
    Back { name: u32 },
}

/// What a call answers.
#[derive(Debug, Clone, Copy, PartialEq, Eq)]
pub enum Reply {
    /// The segment begins at this page.
    At { start: u32 },
    /// No run of free pages has that many.
    NoRun,
    /// `MAX_SEGMENTS` segments are taken.
    Full,
    /// The segment went back.
    Done,
    /// This scheduler has no segment of that name.
    Skipped,
}

/// A call of a scheduler with its reply. The pages are 0 where a segment was to go back.
#[derive(Debug, Clone, Copy, PartialEq, Eq)]
pub struct Call {
    pub scheduler: u32,
    pub name: u32,
    pub pages: u32,
    pub reply: Reply,
}

/// All calls on a region, in the order in which they came, and what they left: how many segments
/// are taken, how many pages these have, and how many pages are free.
#[derive(Drop)]
pub struct Book {
    pub history: List<Call>,
    pub segments: u32,
    pub pages: u32,
    pub free: u32,
}

/// The call by which the scheduler asked for that and got that reply.
pub(crate) fn call_of(scheduler: u32, request: Request, reply: Reply) -> Call
    ensures { result ≡ call_of scheduler request reply }
{
    let (name, pages) = match request {
        Request::Take { name, pages } => (name, pages),
        Request::Back { name } => (name, 0),
    };
    Call {
        scheduler,
        name,
        pages,
        reply,
    }
}
