//! Segments that are taken, by rising start, and walks over them.
ghost use Rattle.std.specs.Prelude.{◌≡◌, ◌+◌, ◌<◌, ◌≤◌, Some, is_some, sum_by};
ghost use Rattle.ea_model.specs.Region.{Laid, lowest_run, runs, stretch};
ghost use Rattle.ea_model.specs.Choice.{better};
ghost use Rattle.ea_segments.specs.Histories.{is_earlier, oldest, segments};

use ea_model::keyed::Keyed;

/// A taken segment: its pages, who took it under which name, and how many calls came before the one
/// that took it.
#[derive(Debug, Clone, Copy, PartialEq, Eq)]
pub struct Held {
    pub start: u32,
    pub pages: u32,
    pub scheduler: u32,
    pub name: u32,
    pub turn: u32,
}

impl Keyed for Held {
    ghost key_of = { λ h. h.start };

    fn key(&self) -> u32 {
        self.start
    }
}

/// Whether the pages from `from` up to `to` are a run of at least that many pages.
fn holds(pages: u32, from: u32, to: u32) -> bool
    requires { from ≤ to }
    ensures { result ≡ is_some (lowest_run pages (stretch from to)) }
{
    from < to && pages <= to - from
}

/// Where the lowest run of at least that many pages begins, of the pages below `end`.
pub(crate) fn lowest_start(pages: u32, end: u32, held: &[Held]) -> Option<u32>
    requires { Laid 0 end (segments held.now) }
    ensures { result ≡ lowest_run pages (runs 0 end (segments held.now)) }
{
    let mut at = 0;
    for segment in held {
        if holds(pages, at, segment.start) {
            return Some(at);
        }
        at = segment.start + segment.pages;
    }
    if holds(pages, at, end) {
        Some(at)
    } else {
        None
    }
}

/// The earlier one of a segment and another, if there is another.
fn earlier(best: Option<Held>, held: Held) -> Held
    ensures { better is_earlier best held ≡ Some result }
{
    match best {
        None => held,
        Some(other) => { if held.turn < other.turn { held } else { other } }
    }
}

/// The segment that the scheduler took first under that name, of those that are taken.
pub(crate) fn oldest_of(scheduler: u32, name: u32, held: &[Held]) -> Option<Held>
    ensures { result ≡ oldest scheduler name held.now }
{
    let mut best = None;
    for segment in held {
        if segment.scheduler == scheduler && segment.name == name {
            best = Some(earlier(best, *segment));
        }
    }
    best
}

/// The pages of all segments.
pub(crate) fn pages_of(end: u32, held: &[Held]) -> u32
    requires { Laid 0 end (segments held.now) }
    ensures sum { result ≡ sum_by (λ h. h.pages) held.now }
    ensures most { result ≤ end }
{
    let mut pages = 0;
    for segment in held {
        pages += segment.pages;
    }
    pages
}
