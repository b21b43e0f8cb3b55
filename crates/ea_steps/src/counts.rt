//! How many steps were taken, and how many of each scheduler.
ghost use Rattle.std.specs.Prelude.{◌≡◌, ◌+◌, ◌-◌, ◌<◌, ◌≤◌, IfOk, OnOk, get_or, length, replicate, set};

use ea_model::OutOfMemory;
use std::alloc::Global;

/// Where a step stands: its place among all steps, and among those of its scheduler, from 1.
#[derive(Debug, Clone, Copy, PartialEq, Eq)]
pub struct Places {
    pub all: u64,
    pub own: u64,
}

/// How many steps were taken, and how many of each scheduler, by its number less 1.
#[derive(Drop)]
pub struct Counts {
    all: u64,
    owns: Vec<u64>,
}

/// The count and that many more. No trace has more steps than 64 bits count; one that had would be
/// answered as one without memory.
fn more(count: u64, steps: u32) -> Result<u64, OutOfMemory>
    ensures { IfOk result (λ n. n ≡ count + steps) }
{
    match count.checked_add(u64::from(steps)) {
        Some(sum) => Ok(sum),
        None => Err(OutOfMemory),
    }
}

impl Counts {
    /// None yet, of that many schedulers.
    pub(crate) fn new(alloc: Global, schedulers: u32) -> Result<Counts, OutOfMemory>
        ensures all { IfOk result (λ counts. counts.all ≡ 0) }
        ensures owns { IfOk result (λ counts. counts.owns.items ≡ replicate schedulers 0) }
    {
        Ok(Counts {
            all: 0,
            owns: vec![in alloc; 0; schedulers as usize]?,
        })
    }

    /// The places of the last step of all, and of the last step of scheduler `me`; 0 before the
    /// first one.
    pub(crate) fn last(&self, me: u32) -> Places
        requires first { 1 ≤ me }
        requires there { me ≤ length self.now.owns.items }
        ensures all { result.all ≡ self.now.all }
        ensures own { result.own ≡ get_or self.now.owns.items (me - 1) 0 }
    {
        Places {
            all: self.all,
            own: self.owns[me as usize - 1],
        }
    }

    /// Counts that many steps more, of scheduler `me`.
    pub(crate) fn add(&mut self, me: u32, steps: u32) -> Result<(), OutOfMemory>
        requires first { 1 ≤ me }
        requires there { me ≤ length self.old.owns.items }
        ensures all { OnOk result (self.new.all ≡ self.old.all + steps) }
        ensures owns { OnOk result (self.new.owns.items ≡ set self.old.owns.items (me - 1)
            (get_or self.old.owns.items (me - 1) 0 + steps)) }
    {
        let index = me as usize - 1;
        self.all = more(self.all, steps)?;
        self.owns[index] = more(self.owns[index], steps)?;
        Ok(())
    }
}
