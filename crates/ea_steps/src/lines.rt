//! The lines that tell what a step did.
ghost use Rattle.std.specs.Prelude.{◌≡◌, ◌≤◌, [], ◌∷◌, ◌++◌, OnOk, codes, decimal, drop, length};
ghost use Rattle.std.specs.Prelude.{true};
ghost use Rattle.ea_report.specs.Text.{kind_text, line};
ghost use Rattle.ea_sched.specs.Acting.{stop_entries};
ghost use Rattle.ea_steps.specs.Text.{log_text, released_text, with_each_line};

use crate::placed::PlacedBlock;
use ea_io::{put_number, put_text};
use ea_model::{CarrierLine, List, Log, OutOfMemory};
use ea_report::Word::{Number, Text};
use ea_report::{kind_word, put_line, put_log_from};
use std::alloc::Global;

/// Adds the line of a released block.
pub(crate) fn put_released(text: &mut List<u8>, placed: PlacedBlock) -> Result<(), OutOfMemory>
    ensures { OnOk result (text.new.items ≡ text.old.items ++ released_text placed) }
{
    let words = [
        Number(placed.block.name),
        Number(placed.carrier),
        Number(placed.block.offset),
        Number(placed.block.size),
    ];
    put_line(text, "released", &words)
}

/// Adds the line of a carrier that went.
pub(crate) fn put_gone(text: &mut List<u8>, number: u32) -> Result<(), OutOfMemory>
    ensures { OnOk result (text.new.items
        ≡ text.old.items ++ line (codes "gone") (decimal number ∷ [])) }
{
    put_line(text, "gone", &[Number(number)])
}

/// Adds the line of a carrier that has fewer pages than before.
pub(crate) fn put_shrunk(text: &mut List<u8>, carrier: CarrierLine) -> Result<(), OutOfMemory>
    ensures { OnOk result (text.new.items ≡ text.old.items ++ line (codes "shrunk")
        (decimal carrier.number ∷ codes "pages" ∷ decimal carrier.pages ∷ [])) }
{
    let words = [Number(carrier.number), Text("pages"), Number(carrier.pages)];
    put_line(text, "shrunk", &words)
}

/// Adds the line of a carrier that was made.
pub(crate) fn put_made(text: &mut List<u8>, carrier: CarrierLine) -> Result<(), OutOfMemory>
    ensures { OnOk result (text.new.items ≡ text.old.items ++ line (codes "made")
        (decimal carrier.number ∷ kind_text carrier.kind ∷ codes "base" ∷ decimal carrier.base
        ∷ codes "pages" ∷ decimal carrier.pages ∷ [])) }
{
    let words = [
        Number(carrier.number),
        Text(kind_word(carrier.kind)),
        Text("base"),
        Number(carrier.base),
        Text("pages"),
        Number(carrier.pages),
    ];
    put_line(text, "made", &words)
}

/// Adds what stands before each line of the log of scheduler `me`.
fn put_begin(text: &mut List<u8>, me: u32) -> Result<(), OutOfMemory>
    ensures { OnOk result (text.new.items
        ≡ text.old.items ++ (codes "log " ++ decimal me ++ codes " ")) }
{
    put_text(text, "log ")?;
    put_number(text, u64::from(me))?;
    put_text(text, " ")
}

/// Adds lines of the log of scheduler `me`, and before each of them whose log it is.
fn put_prefixed(text: &mut List<u8>, me: u32, lines: &[u8]) -> Result<(), OutOfMemory>
    ensures { OnOk result (text.new.items ≡ text.old.items
        ++ with_each_line (codes "log " ++ decimal me ++ codes " ") true lines.now) }
{
    let mut begins = true;
    for byte in lines {
        if begins {
            put_begin(text, me)?;
        }
        text.push(*byte)?;
        begins = *byte == 10;
    }
    Ok(())
}

/// Adds the lines of the log of scheduler `me` from its entry at `from` on, and then that of a stop
/// after so many steps, if it was stopped.
pub(crate) fn put_log(
    alloc: Global,
    text: &mut List<u8>,
    me: u32,
    log: &Log,
    from: usize,
    stopped: Option<u32>,
) -> Result<(), OutOfMemory>
    requires { from ≤ length log.now.items }
    ensures { OnOk result (text.new.items ≡ text.old.items
        ++ log_text me (drop from log.now.items ++ stop_entries stopped)) }
{
    let mut lines = List::new(alloc);
    put_log_from(&mut lines, log, from)?;
    if let Some(steps) = stopped {
        put_line(&mut lines, "stopped", &[Number(steps)])?;
    }
    put_prefixed(text, me, lines.as_slice())
}

/// Adds the line of a scheduler that has ended.
pub(crate) fn put_ended(text: &mut List<u8>, me: u32) -> Result<(), OutOfMemory>
    ensures { OnOk result (text.new.items
        ≡ text.old.items ++ line (codes "ended") (decimal me ∷ [])) }
{
    put_line(text, "ended", &[Number(me)])
}
