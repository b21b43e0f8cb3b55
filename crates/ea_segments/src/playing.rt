//! Schedulers that make their requests beside each other, each on a thread of its own.
ghost use Rattle.std.specs.Prelude.{◌≡◌, ℕ, ◌<◌, ◌≤◌, All, IfOk, length, map};
ghost use Rattle.std.specs.Prelude.{slice_index_or, sum_by};
ghost use Rattle.ea_model.specs.declared.units.TheConstants.{MAX_OPS, MAX_PAGES, MAX_SCHEDULERS};
ghost use Rattle.ea_segments.specs.Requests.{IsBookOf, IsRequest};
ghost use Rattle.ea_segments.specs.Seating.{IsPassOf, Made, MayPlay, Played, known};

use crate::calls::{Book, Request};
use crate::closing::close;
use crate::desk::Desk;
use crate::making::{Start, make_passes};
use crate::pass::Pass;
use ea_model::{List, OutOfMemory};
use std::alloc::Global;
use std::sync::Wait;
use std::thread;
use std::thread::Threads;

/// Makes one request.
fn make<W: Wait>(wait: &W, desk: &Desk, pass: &mut Pass, request: Request)
    requires seated { IsPassOf desk.now pass.old }
    requires left { 1 ≤ (known pass.old).left }
    requires is { IsRequest request }
    ensures seated { pass.new.seat.table_id ≡ pass.old.seat.table_id }
    ensures made { Made request (known pass.old) (known pass.new) }
{
    match request {
        Request::Take { name, pages } => {
            pass.take(wait, desk, name, pages);
        }
        Request::Back { name } => {
            pass.back(wait, desk, name);
        }
    }
}

/// Makes the requests of a section, in their order.
fn play_section<W: Wait>(wait: &W, desk: &Desk, pass: &mut Pass, requests: &[Request])
    requires { MayPlay desk.now requests.now pass.old }
    ensures seated { pass.new.seat.table_id ≡ pass.old.seat.table_id }
    ensures played { Played requests.now (known pass.old) (known pass.new) }
{
    for request in requests {
        make(wait, desk, pass, *request);
    }
}

/// Makes the requests of all sections, each section on a thread of its own.
fn play_all<R: Threads + Wait + Sync>(
    rt: &R,
    desk: &Desk,
    passes: &mut [Pass],
    sections: &[List<Request>],
)
    requires some { 1 ≤ length sections.now }
    requires all { length passes.old ≡ length sections.now }
    requires may { (k : ℕ) (d : _) (e : _) → k < length sections.now
        → MayPlay desk.now (slice_index_or sections.now k e).items (slice_index_or passes.old k d) }
    ensures seated { (k : ℕ) (d : _) → k < length sections.now
        → IsPassOf desk.now (slice_index_or passes.new k d) }
    ensures played { (k : ℕ) (d : _) (e : _) → k < length sections.now
        → Played (slice_index_or sections.now k e).items (known (slice_index_or passes.old k d))
        (known (slice_index_or passes.new k d)) }
{
    thread::for_each_mut(
        rt,
        passes,
        sections.len(),
        &|index: usize, pass: &mut Pass|
            requires within { index < length sections.now }
            requires may { (e : _) → MayPlay desk.now (slice_index_or sections.now index e).items
                pass.old }
            ensures seated { IsPassOf desk.entry.now pass.new }
            ensures played { (e : _) → Played (slice_index_or sections.entry.now index e).items
                (known pass.old) (known pass.new) }
        { play_section(rt, desk, pass, sections[index].as_slice()) },
    );
}

/// The same with a list of passes, which comes back.
fn play_passes<R: Threads + Wait + Sync>(
    rt: &R,
    desk: &Desk,
    passes: List<Pass>,
    sections: &[List<Request>],
) -> List<Pass>
    requires some { 1 ≤ length sections.now }
    requires all { length passes.items ≡ length sections.now }
    requires may { (k : ℕ) (d : _) (e : _) → k < length sections.now
        → MayPlay desk.now (slice_index_or sections.now k e).items
        (slice_index_or passes.items k d) }
    ensures all { length result.items ≡ length sections.now }
    ensures seated { (k : ℕ) (d : _) → k < length sections.now
        → IsPassOf desk.now (slice_index_or result.items k d) }
    ensures played { (k : ℕ) (d : _) (e : _) → k < length sections.now
        → Played (slice_index_or sections.now k e).items (known (slice_index_or passes.items k d))
        (known (slice_index_or result.items k d)) }
{
    let mut passes = passes.into_vec();
    play_all(rt, desk, &mut passes, sections);
    List::from_vec(passes)
}

/// How many requests each section has.
fn counts_of(alloc: Global, sections: &[List<Request>]) -> Result<List<u32>, OutOfMemory>
    requires { sum_by (λ s. length s.items) sections.now ≤ MAX_OPS }
    ensures { IfOk result (λ counts. counts.items ≡ map (λ s. length s.items) sections.now) }
{
    let mut counts = List::new(alloc);
    for section in sections {
        counts.push(section.len() as u32)?;
    }
    Ok(counts)
}

/// The book of a region of `pages` pages on which as many schedulers as there are sections make
/// their requests, each on a thread of its own. It may wait; and it fails only where there is no
/// memory.
pub fn play<R: Threads + Wait + Sync>(
    rt: &R,
    alloc: Global,
    pages: u32,
    sections: &[List<Request>],
) -> Result<Book, OutOfMemory>
    requires pages { (1 ≤ pages) × (pages ≤ MAX_PAGES) }
    requires some { (1 ≤ length sections.now) × (length sections.now ≤ MAX_SCHEDULERS) }
    requires few { sum_by (λ s. length s.items) sections.now ≤ MAX_OPS }
    requires are { All (λ s. All IsRequest s.items) sections.now }
    ensures { IfOk result (IsBookOf pages sections.now) }
{
    let counts = counts_of(alloc, sections)?;
    let Start { desk, passes } = make_passes(alloc, pages, &counts)?;
    let passes = play_passes(rt, &desk, passes, sections);
    Ok(close(desk, passes))
}
