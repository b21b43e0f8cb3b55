//! The lines of a log.
ghost use Rattle.std.specs.Prelude.{◌≡◌, ◌+◌, ◌<◌, ◌≤◌, [], ◌∷◌, ◌++◌, All, OnOk, Some};
ghost use Rattle.std.specs.Prelude.{codes, decimal, drop, length, slice_get};
ghost use Rattle.ea_model.specs.declared.entries.Entry.TheVariants.{Info};
ghost use Rattle.std.specs.List.{flat_map};
ghost use Rattle.ea_model.specs.Entries.{IsWithin, told};
ghost use Rattle.ea_report.specs.Printed.{spaced};
ghost use Rattle.ea_report.specs.Text.{cause_text, fail_words, report_text, entry_text};
ghost use Rattle.ea_report.specs.declared.tails.TheConstants.{LONGEST};

use crate::tails::Tail;
use ea_model::{Entry, List, Log, NoCarrier, OutOfMemory, Place, Report, Reports, Triple};

fn cause_word(cause: NoCarrier) -> &'static str
    ensures word { result.now ≡ cause_text cause }
    ensures short { length result.now ≤ 7 }
{
    match cause {
        NoCarrier::Numbers => "numbers",
        NoCarrier::Space => "space",
    }
}

/// Puts the numbers of a figure in front, and before them the word that says what they count, with
/// its space.
fn put_figure(tail: &mut Tail, word: &str, figure: Triple)
    requires word { length word.now ≤ 14 }
    requires room { length tail.old + 77 ≤ LONGEST }
    ensures bytes { tail.new ≡ word.now ++ spaced
        (decimal figure.now ∷ decimal figure.last ∷ decimal figure.ever ∷ []) tail.old }
    ensures len { length tail.new ≤ length tail.old + 63 + length word.now }
{
    tail.sum(figure.ever);
    tail.sum(figure.last);
    tail.sum(figure.now);
    tail.text(word);
}

/// Puts the allocator information of one class of carriers in front, whose word has four letters.
fn put_report(tail: &mut Tail, class: &str, report: &Report)
    requires class { length class.now ≡ 4 }
    requires room { length tail.old + 304 ≤ LONGEST }
    ensures bytes { tail.new ≡ report_text class.now report.now ++ tail.old }
    ensures len { length tail.new ≤ length tail.old + 304 }
{
    tail.text("\n");
    put_figure(tail, " carriers_size", report.carriers_size);
    put_figure(tail, " carriers", report.carriers);
    put_figure(tail, " blocks_size", report.blocks_size);
    put_figure(tail, " blocks", report.blocks);
    tail.text(class);
    tail.text("info ");
}

/// Puts a place in front.
#[inline(always)]
fn put_place(tail: &mut Tail, place: Place)
    requires { length tail.old + 33 ≤ LONGEST }
    ensures bytes { tail.new ≡ spaced
        (decimal place.carrier ∷ decimal place.offset ∷ decimal place.size ∷ []) tail.old }
    ensures len { length tail.new ≤ length tail.old + 33 }
{
    tail.number(place.size);
    tail.number(place.offset);
    tail.number(place.carrier);
}

/// Puts the names and the place of a reallocation in front.
fn put_realloc(tail: &mut Tail, old: u32, fresh: u32, place: Place)
    requires { length tail.old + 62 ≤ LONGEST }
    ensures { tail.new ≡ codes "realloc" ++ spaced (decimal old ∷ decimal fresh
        ∷ decimal place.carrier ∷ decimal place.offset ∷ decimal place.size ∷ []) tail.old }
{
    put_place(tail, place);
    tail.number(fresh);
    tail.number(old);
    tail.text("realloc");
}

/// Puts in front what stands after the names of an operation that found no place.
fn put_fail(tail: &mut Tail, need: u32, looked: u32, why: NoCarrier)
    requires { length tail.old + 48 ≤ LONGEST }
    ensures bytes { tail.new ≡ spaced (fail_words need looked why) tail.old }
    ensures len { length tail.new ≤ length tail.old + 48 }
{
    tail.text(cause_word(why));
    tail.text(" ");
    tail.number(looked);
    tail.text(" looked");
    tail.number(need);
    tail.text(" fail need");
}

/// Makes the two lines of the allocator information.
fn put_info(tail: &mut Tail, reports: &Reports)
    requires { tail.old ≡ [] }
    ensures { tail.new ≡ entry_text (Info reports.now) }
{
    put_report(tail, "sbcs", &reports.sbcs);
    put_report(tail, "mbcs", &reports.mbcs);
}

/// The reports at a place among these.
fn reports_at(reports: &[Reports], at: usize) -> &Reports
    requires { at < length reports.now }
    ensures { slice_get reports.now at ≡ Some result.now }
{
    &reports[at]
}

/// Makes the lines of an entry, whose reports, if it has any, stand among these: the allocator
/// information has two, each other entry one.
fn put_entry(tail: &mut Tail, entry: &Entry<usize>, reports: &[Reports])
    requires empty { tail.old ≡ [] }
    requires within { IsWithin (length reports.now) entry.now }
    ensures { tail.new ≡ entry_text (told reports.now entry.now) }
{
    match *entry {
        Entry::Alloc { name, place } => {
            tail.text("\n");
            put_place(tail, place);
            tail.number(name);
            tail.text("alloc");
        }
        Entry::AllocFail {
            name,
            need,
            looked,
            why,
        } => {
            tail.text("\n");
            put_fail(tail, need, looked, why);
            tail.number(name);
            tail.text("alloc");
        }
        Entry::Free { name } => {
            tail.text(" done\n");
            tail.number(name);
            tail.text("free");
        }
        Entry::FreeQueued { name, to } => {
            tail.text("\n");
            tail.number(to);
            tail.text(" queued");
            tail.number(name);
            tail.text("free");
        }
        Entry::FreeSkipped { name } => {
            tail.text(" skipped\n");
            tail.number(name);
            tail.text("free");
        }
        Entry::ReallocHere { old, fresh, place } => {
            tail.text(" here\n");
            put_realloc(tail, old, fresh, place);
        }
        Entry::ReallocMoved { old, fresh, place } => {
            tail.text(" moved done\n");
            put_realloc(tail, old, fresh, place);
        }
        Entry::ReallocQueued {
            old,
            fresh,
            place,
            to,
        } => {
            tail.text("\n");
            tail.number(to);
            tail.text(" moved queued");
            put_realloc(tail, old, fresh, place);
        }
        Entry::ReallocFail {
            old,
            fresh,
            need,
            looked,
            why,
        } => {
            tail.text("\n");
            put_fail(tail, need, looked, why);
            tail.number(fresh);
            tail.number(old);
            tail.text("realloc");
        }
        Entry::ReallocSkipped { old, fresh } => {
            tail.text(" skipped\n");
            tail.number(fresh);
            tail.number(old);
            tail.text("realloc");
        }
        Entry::Give { name, to } => {
            tail.text("\n");
            tail.number(to);
            tail.number(name);
            tail.text("give");
        }
        Entry::GiveSkipped { name, to } => {
            tail.text(" skipped\n");
            tail.number(to);
            tail.number(name);
            tail.text("give");
        }
        Entry::Take { name } => {
            tail.text(" got\n");
            tail.number(name);
            tail.text("take");
        }
        Entry::TakeAbsent { name, tries } => {
            tail.text("\n");
            tail.number(tries);
            tail.text(" absent");
            tail.number(name);
            tail.text("take");
        }
        Entry::Info { reports: at } => put_info(tail, reports_at(reports, at)),
        Entry::Idle => tail.text("idle\n"),
        Entry::Stopped { steps } => {
            tail.text("\n");
            tail.number(steps);
            tail.text("stopped");
        }
    }
}

/// Adds the lines of entries, whose reports stand among these.
fn put_entries(
    text: &mut List<u8>,
    entries: &[Entry<usize>],
    reports: &[Reports],
) -> Result<(), OutOfMemory>
    requires { All (IsWithin (length reports.now)) entries.now }
    ensures { OnOk result (text.new.items ≡ text.old.items
        ++ flat_map (λ e. entry_text (told reports.now e)) entries.now) }
{
    let mut tail = Tail::new();
    for entry in entries {
        tail.clear();
        put_entry(&mut tail, entry, reports);
        text.extend_from_slice(tail.bytes())?;
    }
    Ok(())
}

/// Adds the lines of a log from its entry at `from` on, which it has, or at its end.
pub fn put_log_from(text: &mut List<u8>, log: &Log, from: usize) -> Result<(), OutOfMemory>
    requires { from ≤ length log.now.items }
    ensures { OnOk result (text.new.items ≡ text.old.items
        ++ flat_map entry_text (drop from log.now.items)) }
{
    let (entries, reports) = log.parts();
    put_entries(text, &entries[from..], reports)
}

/// Adds the lines of a log.
pub fn put_log(text: &mut List<u8>, log: &Log) -> Result<(), OutOfMemory>
    ensures { OnOk result (text.new.items ≡ text.old.items ++ flat_map entry_text log.now.items) }
{
    put_log_from(text, log, 0)
}
