//! Makes the text of one scheduler.
ghost use Rattle.std.specs.Prelude.{◌≡◌, ◌+◌, [], ◌∷◌, ◌++◌, IfOk, OnOk};
ghost use Rattle.ea_model.specs.Trace;
ghost use Rattle.ea_gen.specs.Generated.{given_to, text_of};
ghost use Rattle.ea_gen.specs.Places.{IsSection};

use crate::maker::Maker;
use crate::section::Section;
use ea_model::{List, Op, OutOfMemory};
use std::alloc::Global;

/// A text that was made, and the names that it gives to the scheduler after its own.
#[derive(Drop)]
pub struct Made {
    pub text: List<Op>,
    pub gives: Vec<u32>,
}

/// Notes the name of an operation that gives one to scheduler `to`.
fn note_give(gives: &mut Vec<u32>, op: Op, to: u32) -> Result<(), OutOfMemory>
    ensures { OnOk result (gives.new.items ≡ gives.old.items ++ given_to to (op ∷ [])) }
{
    match op {
        Op::Give { name, to: receiver } if receiver == to => Ok(gives.push(name)?),
        _ => Ok(()),
    }
}

/// Makes the text of a scheduler to which these names were given.
pub fn make_text(
    alloc: Global,
    seed: u32,
    section: Section,
    given: Vec<u32>,
) -> Result<Made, OutOfMemory>
    requires { IsSection section }
    ensures text { IfOk result (λ made. made.text.items ≡ text_of seed section given.items) }
    ensures gives { IfOk result (λ made.
        made.gives.items ≡ given_to (section.scheduler + 1) made.text.items) }
{
    let mut maker = Maker::new(alloc, section, seed, given);
    let mut text = List::new(alloc);
    let mut gives = Vec::new(alloc);
    for _ in 0..section.count {
        let op = maker.next_op()?;
        note_give(&mut gives, op, section.scheduler + 1)?;
        text.push(op)?;
    }
    Ok(Made { text, gives })
}

/// The greatest name of these operations, or 0.
pub fn greatest_of(text: &[Op]) -> u32
    ensures { result ≡ Trace.greatest_of text.now }
{
    let mut greatest = 0;
    for op in text {
        greatest = greatest.max(op.greatest_in());
    }
    greatest
}
