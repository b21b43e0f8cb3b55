//! The text of a run of several types.
ghost use Rattle.std.specs.Prelude.{◌≡◌, ◌++◌, IfOk, OnOk};
ghost use Rattle.ea_types.specs.Output.{part_text, parts_text};

use ea_io::put_text;
use ea_model::{Letter, List, OutOfMemory, Outcome};
use ea_report::put_beside;
use ea_trace::letter_word;
use std::alloc::Global;
use std::thread::Threads;

/// Adds the part of a type.
#[tactic(auto, using(std::proofs::lemmas::List::append_assoc))]
fn put_part<R: Threads + Sync>(
    rt: &R,
    alloc: Global,
    text: &mut List<u8>,
    letter: Letter,
    outcome: &Outcome,
) -> Result<(), OutOfMemory>
    ensures { OnOk result (text.new.items ≡ text.old.items ++ part_text letter outcome.now) }
{
    put_text(text, "type ")?;
    text.extend_from_slice(letter_word(letter))?;
    put_text(text, "\n")?;
    put_beside(rt, alloc, text, outcome)?;
    Ok(())
}

/// The parts of these types, in order: of each its line, and the text of its outcome.
pub(crate) fn print_parts<R: Threads + Sync>(
    rt: &R,
    alloc: Global,
    letters: &[Letter],
    outcomes: &[Outcome],
) -> Result<List<u8>, OutOfMemory>
    ensures { IfOk result (λ text. text.items ≡ parts_text letters.now outcomes.now) }
{
    let mut text = List::new(alloc);
    for (letter, outcome) in letters.iter().zip(outcomes) {
        put_part(rt, alloc, &mut text, *letter, outcome)?;
    }
    Ok(text)
}
