//! The carrier that a step made, by what was noted before it and by its scheduler after it.
ghost use Rattle.std.specs.Prelude.{◌≡◌, ◌≤◌, List, drop, length, map};
ghost use Rattle.ea_model.specs.declared.entries.Reports.{Reports};
ghost use Rattle.ea_model.specs.Entries.{told};
ghost use Rattle.ea_given.specs.Runs.{HasScheduler, IsRun};
ghost use Rattle.ea_steps.specs.Entered.{HasAdded, carriers_in, carriers_with};
ghost use Rattle.ea_steps.specs.FoundCarriers.{first_number};
ghost use Rattle.ea_steps.specs.Noted.{HasMade, HasStepped};
ghost use Rattle.ea_steps.specs.Touched.{as_list};

use crate::touched::Touched;
use ea_given::GivenRun;
use ea_model::{Entry, Log};

/// The entries of a log from that at `from` on, which it has, or none at its end.
fn entries_from(log: &Log, from: usize) -> &[Entry<usize>]
    requires { from ≤ length log.now.items }
    ensures { (reports : List Reports)
        × (map (told reports) result.now ≡ drop from log.now.items) }
{
    let (entries, _) = log.parts();
    &entries[from..]
}

/// The entries that the step of scheduler `me` added to its log.
pub(crate) fn added<'a>(run: &'a GivenRun<'_>, me: u32, touched: &Touched) -> &'a [Entry<usize>]
    requires stands { IsRun run.now }
    requires scheduler { HasScheduler me run.now }
    requires stepped { HasStepped me touched.now run.now }
    ensures { HasAdded me touched.now run.now result.now }
{
    entries_from(run.at(me).log(), touched.entries)
}

/// The carrier in which an entry says that a block was placed.
fn placed_in(entry: &Entry<usize>) -> Option<u32>
    ensures { (reports : List Reports) → as_list result ≡ carriers_in (told reports entry.now) }
{
    match entry {
        Entry::Alloc { place, .. }
        | Entry::ReallocHere { place, .. }
        | Entry::ReallocMoved { place, .. }
        | Entry::ReallocQueued { place, .. } => Some(place.carrier),
        _ => None,
    }
}

/// The carrier of the first block that these entries place.
fn first_placed(entries: &[Entry<usize>]) -> Option<u32>
    ensures { (reports : List Reports)
        → result ≡ first_number (carriers_with reports entries.now) }
{
    for entry in entries {
        if let Some(carrier) = placed_in(entry) {
            return Some(carrier);
        }
    }
    None
}

/// The carrier that the step made, if it made one: `made_number` of the step.
pub(crate) fn made(run: &GivenRun<'_>, me: u32, touched: &Touched) -> Option<u32>
    requires stands { IsRun run.now }
    requires scheduler { HasScheduler me run.now }
    requires stepped { HasStepped me touched.now run.now }
    ensures { HasMade me touched.now run.now result }
{
    let scheduler = run.at(me);
    if scheduler.instance().created() == touched.created {
        return None;
    }
    if touched.creates.is_some() {
        return touched.creates;
    }
    if let Some(place) = scheduler.moving() {
        return Some(place.carrier);
    }
    first_placed(added(run, me, touched))
}
