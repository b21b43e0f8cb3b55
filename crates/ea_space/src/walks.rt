//! Walks over the taken segments, by rising base.
ghost use Rattle.std.specs.Prelude.{◌≡◌, ◌<◌, ◌≤◌, length, is_some};
ghost use Rattle.std.specs.List.{position_or_len};
ghost use Rattle.ea_model.specs.Region.{stretch, runs, lowest_run, highest_end, place_in, covers};
ghost use Rattle.ea_model.specs.Region.{Laid};

use ea_model::Segment;

/// Whether the pages from `from` up to `to` are a run of at least that many pages.
fn holds(pages: u32, from: u32, to: u32) -> bool
    requires { from ≤ to }
    ensures { result ≡ is_some (lowest_run pages (stretch from to)) }
{
    from < to && pages <= to - from
}

/// Where the lowest run of at least that many pages begins.
fn lowest_start(pages: u32, first: u32, end: u32, taken: &[Segment]) -> Option<u32>
    requires { Laid first end taken.now }
    ensures { result ≡ lowest_run pages (runs first end taken.now) }
{
    let mut at = first;
    for segment in taken {
        if holds(pages, at, segment.base) {
            return Some(at);
        }
        at = segment.base + segment.pages;
    }
    if holds(pages, at, end) {
        Some(at)
    } else {
        None
    }
}

/// Where the pages begin that end the highest run of at least that many pages.
fn highest_start(pages: u32, first: u32, end: u32, taken: &[Segment]) -> Option<u32>
    requires { Laid first end taken.now }
    ensures { result ≡ highest_end pages (runs first end taken.now) }
{
    let mut upto = end;
    for segment in taken.iter().rev() {
        let from = segment.base + segment.pages;
        if holds(pages, from, upto) {
            return Some(upto - pages);
        }
        upto = segment.base;
    }
    if holds(pages, first, upto) {
        Some(upto - pages)
    } else {
        None
    }
}

/// Where a segment of that many pages is placed: at the front of the lowest run that holds it, or,
/// where segments fall, at the end of the highest one.
pub fn start(falling: bool, pages: u32, first: u32, end: u32, taken: &[Segment]) -> Option<u32>
    requires { Laid first end taken.now }
    ensures { result ≡ place_in falling pages (runs first end taken.now) }
{
    if falling {
        return highest_start(pages, first, end, taken);
    }
    lowest_start(pages, first, end, taken)
}

/// The index of the first segment that covers the page.
pub fn index_of(taken: &[Segment], page: u32) -> usize
    requires { position_or_len (covers page) taken.now < length taken.now }
    ensures index { result ≡ position_or_len (covers page) taken.now }
    ensures within { result < length taken.now }
{
    for (i, segment) in taken.iter().enumerate() {
        if segment.base <= page && page - segment.base < segment.pages {
            return i;
        }
    }
    unreachable!()
}
