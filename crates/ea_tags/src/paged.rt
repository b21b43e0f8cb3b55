//! Numbers of which memory is written only where some are used.
ghost use Rattle.std.specs.Prelude.{◌≡◌, ℕ, ◌<◌, ◌≤◌, IfOk, length, replicate, slice_index};
ghost use Rattle.std.specs.Prelude.{slice_set, vec_capacity, vec_len};
ghost use Rattle.ea_tags.specs.Pages.{IsPaged, number};

use ea_model::OutOfMemory;
use std::alloc::Global;
use std::marker::Model;

/// How many numbers a page has.
pub const PAGE: usize = 512;

/// Numbers that are 0 until they are set. Contracts see them as a list.
///
/// The memory for all of them is reserved, and as much of it is used as the pages take in which a
/// number was set.
#[derive(Drop)]
pub struct PagedArray {
    len: u32,
    /// Where each page ends in `used`, 0 where it isn't there.
    ends: Vec<usize>,
    /// The pages that are used, one after another.
    used: Vec<u32>,
}

impl Model for PagedArray {
    ghost use Rattle.std.specs.Prelude.{◌<◌, ℕ, List, vec_capacity};
    ghost use Rattle.ea_tags.specs.Pages.{HasPages, numbers};

    ghost Value = { List ℕ };

    ghost view = { λ a. numbers a.len a.ends.items a.used.items };

    ghost invariant = { λ a. HasPages a.len a.ends.items a.used.items (vec_capacity a.used) };
}

impl PagedArray {
    /// That many numbers, all of them 0. Later calls take no memory.
    pub fn new(alloc: Global, len: u32) -> Result<PagedArray, OutOfMemory>
        ensures { IfOk result (λ a. a ≡ replicate len 0) }
    {
        let pages = (len as usize).div_ceil(PAGE);
        let ends = vec![in alloc; 0; pages]?;
        let used = Vec::with_capacity(alloc, pages * PAGE)?;
        Ok(PagedArray { len, ends, used })
    }

    /// How many numbers there are.
    pub fn len(&self) -> u32
        ensures { result ≡ length self.now }
    {
        self.len
    }

    /// The number at `at`.
    pub fn get(&self, at: u32) -> u32
        requires { at < length self.now }
        ensures { result ≡ slice_index self.now at }
    {
        let end = self.ends[at as usize / PAGE];
        if end == 0 {
            return 0;
        }
        self.used[end - PAGE + at as usize % PAGE]
    }

    /// Puts another number there.
    pub fn set(&mut self, at: u32, value: u32)
        requires { at < length self.old }
        ensures { self.new ≡ slice_set self.old at value }
    {
        let end = use_page(at as usize / PAGE, &mut self.ends, &mut self.used);
        self.used[end - PAGE + at as usize % PAGE] = value;
    }
}

/// Sees to it that the page is there, and answers where it ends.
fn use_page(page: usize, ends: &mut Vec<usize>, used: &mut Vec<u32>) -> usize
    requires within { page < length ends.old.items }
    requires paged { IsPaged ends.old.items used.old.items (vec_capacity used.old) }
    ensures paged { IsPaged ends.new.items used.new.items (vec_capacity used.new) }
    ensures pages { length ends.new.items ≡ length ends.old.items }
    ensures some { 1 ≤ result }
    ensures end { slice_index ends.new.items page ≡ result }
    ensures same { (i : ℕ) → number ends.new.items used.new.items i
        ≡ number ends.old.items used.old.items i }
{
    let held = ends[page];
    if held != 0 {
        return held;
    }
    let end = used.len() + PAGE;
    if used.resize(end, 0).is_err() {
        unreachable!();
    }
    ends[page] = end;
    end
}
