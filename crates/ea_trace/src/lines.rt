//! What one line of a trace says, by itself.
ghost use Rattle.std.specs.Prelude.{◌≡◌, ◌∷◌, unwrap_or};
ghost use Rattle.ea_trace.specs.declared.lines.Line.TheVariants.{Unreadable};
ghost use Rattle.ea_model.specs.Words.{words};
ghost use Rattle.ea_trace.specs.Lines.{section_in, type_in, generate_in, alloc_in};
ghost use Rattle.ea_trace.specs.Lines.{stop_in};
ghost use Rattle.ea_trace.specs.Lines.{free_in, realloc_in, give_in, take_in, operation_in, one_of};
ghost use Rattle.ea_trace.specs.Lines.{turns_in, line_of_words};
ghost use Rattle.ea_trace.specs.Ranges.{InRange};
ghost use Rattle.ea_trace.specs.Says.{said, said_or};

use crate::keywords::{Keyword, OpKind, is_comment, keyword_at, kind_at, letter_at};
use crate::words::{bare, bytes, count, name, one_word, scheduler, three_words, two_words};
use ea_model::words::{first_word, number};
use ea_model::{Letter, MAX_SEED, MAX_STEPS, MAX_TRIES, Op, Stop};
use std::alloc::AllocError;

/// What one line says. `T` holds the turns of a line of turns: in definitions their list, in code
/// the text of the line, which may turn out to be malformed when its turns are read.
#[derive(Copy)]
pub enum Line<T> {
    /// A line without words, or a comment.
    Skipped,
    /// `type X`: whose settings hold.
    Letter { letter: Letter },
    /// `scheduler I`: a section begins. The number is 0 to `MAX_READ`.
    Section { number: u32 },
    /// An operation of the section.
    Operation { op: Op },
    /// `stop I STEPS`: a scheduler stops after that many steps, 0 to 100000000.
    Stop { stop: Stop },
    /// `threads`: each scheduler is to have a thread.
    Threads,
    /// `schedule`: lines of turns may follow.
    Schedule,
    /// Turns of the schedule.
    Turns { turns: T },
    /// `generate SEED COUNT`: the seed is 0 to 2147483647, the count 1 to `MAX_READ`.
    Generate { seed: u32, count: u32 },
    /// `end`: nothing but lines that are skipped may follow.
    End,
    /// No line of the language.
    Unreadable,
}

impl<T: Copy> Clone for Line<T> {
    fn clone(&self) -> Result<Self, AllocError> {
        Ok(*self)
    }
}

/// A greater number of a scheduler or of operations is read as this one: no scheduler has it, and
/// no trace has that many operations.
pub const MAX_READ: u32 = u32::MAX;

/// The begin of a section.
fn section(rest: &[u8]) -> Option<Line<&[u8]>>
    ensures { said_or result ≡ section_in (words rest.now) }
{
    Some(Line::Section {
        number: scheduler(one_word(rest)?)?,
    })
}

fn type_line(rest: &[u8]) -> Option<Line<&[u8]>>
    ensures { said_or result ≡ type_in (words rest.now) }
{
    Some(Line::Letter {
        letter: letter_at(one_word(rest)?)?,
    })
}

fn generate(rest: &[u8]) -> Option<Line<&[u8]>>
    ensures { said_or result ≡ generate_in (words rest.now) }
{
    let (seed, operations) = two_words(rest)?;
    Some(Line::Generate {
        seed: number(seed, 0, MAX_SEED)?,
        count: count(operations)?,
    })
}

/// A stop.
fn stop(rest: &[u8]) -> Option<Line<&[u8]>>
    ensures { said_or result ≡ stop_in (words rest.now) }
{
    let (who, steps) = two_words(rest)?;
    Some(Line::Stop {
        stop: Stop {
            scheduler: scheduler(who)?,
            steps: number(steps, 0, MAX_STEPS)?,
        },
    })
}

fn alloc(rest: &[u8]) -> Option<Op>
    ensures { result ≡ alloc_in (words rest.now) }
{
    let (block, request) = two_words(rest)?;
    Some(Op::Alloc {
        name: name(block)?,
        bytes: bytes(request)?,
    })
}

fn free(rest: &[u8]) -> Option<Op>
    ensures { result ≡ free_in (words rest.now) }
{
    Some(Op::Free {
        name: name(one_word(rest)?)?,
    })
}

fn realloc(rest: &[u8]) -> Option<Op>
    ensures { result ≡ realloc_in (words rest.now) }
{
    let (old, fresh, request) = three_words(rest)?;
    Some(Op::Realloc {
        old: name(old)?,
        fresh: name(fresh)?,
        bytes: bytes(request)?,
    })
}

fn give(rest: &[u8]) -> Option<Op>
    ensures { result ≡ give_in (words rest.now) }
{
    let (block, to) = two_words(rest)?;
    Some(Op::Give {
        name: name(block)?,
        to: scheduler(to)?,
    })
}

fn take(rest: &[u8]) -> Option<Op>
    ensures { result ≡ take_in (words rest.now) }
{
    let (block, tries) = two_words(rest)?;
    Some(Op::Take {
        name: name(block)?,
        tries: number(tries, 1, MAX_TRIES)?,
    })
}

/// The operation that its name and the words after it spell.
fn operation(first: &[u8], rest: &[u8]) -> Option<Op>
    ensures { result ≡ operation_in first.now (words rest.now) }
{
    match kind_at(first)? {
        OpKind::Alloc => alloc(rest),
        OpKind::Free => free(rest),
        OpKind::Realloc => realloc(rest),
        OpKind::Give => give(rest),
        OpKind::Take => take(rest),
        OpKind::Info => bare(Op::Info, rest),
        OpKind::Idle => bare(Op::Idle, rest),
    }
}

/// A line of an operation, or else one that may be of turns.
fn operation_or_turns<'a>(text: &'a [u8], first: &[u8], rest: &[u8]) -> Line<&'a [u8]>
    requires { words text.now ≡ first.now ∷ words rest.now }
    ensures { said result ≡ unwrap_or (one_of (operation_in first.now (words rest.now))
        (turns_in (words text.now))) Unreadable }
{
    match operation(first, rest) {
        Some(op) => Line::Operation { op },
        None => Line::Turns { turns: text },
    }
}

/// The line that a text says, by its first word and the rest after it; None where it is malformed.
fn command<'a>(text: &'a [u8], first: &[u8], rest: &'a [u8]) -> Option<Line<&'a [u8]>>
    requires { words text.now ≡ first.now ∷ words rest.now }
    ensures { unwrap_or (said_or result) Unreadable
        ≡ unwrap_or (Rattle.ea_trace.specs.Lines.command first.now (words rest.now)) Unreadable }
{
    match keyword_at(first) {
        Some(Keyword::Threads) => bare(Line::Threads, rest),
        Some(Keyword::Schedule) => bare(Line::Schedule, rest),
        Some(Keyword::End) => bare(Line::End, rest),
        Some(Keyword::Letter) => type_line(rest),
        Some(Keyword::Section) => section(rest),
        Some(Keyword::Stop) => stop(rest),
        Some(Keyword::Generate) => generate(rest),
        None => Some(operation_or_turns(text, first, rest)),
    }
}

/// What a line says. Whether one of turns is malformed isn't looked at.
pub fn read_line(text: &[u8]) -> Line<&[u8]>
    ensures line { said result ≡ line_of_words (words text.now) }
    ensures in_range { InRange (said result) }
{
    let Some((word, rest)) = first_word(text) else {
        return Line::Skipped;
    };
    if is_comment(word) {
        return Line::Skipped;
    }
    command(text, word, rest).unwrap_or(Line::Unreadable)
}
