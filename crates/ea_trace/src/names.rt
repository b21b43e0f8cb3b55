//! What lines say of each name.
ghost use Rattle.std.specs.Prelude.{◌≡◌, ◌+◌, ◌<◌, ◌≤◌, ◌∷◌, ◌==◌, [], ℕ, false, IfOk, get_or};
ghost use Rattle.std.specs.Prelude.{if◌then◌else◌, length, vec_capacity};
ghost use Rattle.ea_model.specs.declared.units.TheConstants.{MAX_NAME};
ghost use Rattle.ea_trace.specs.Language as language;
ghost use Rattle.ea_trace.specs.Language.{Earlier, reuses};
ghost use Rattle.ea_trace.specs.Ranges.{HasRanges};
ghost use Rattle.ea_trace.specs.declared.lines.Line.TheVariants.{Operation};

use ea_model::{MAX_NAME, Op};
use std::alloc::{AllocError, Global};

/// The value of a name in a table, whose names past its end have `none`.
fn value_of<T: Copy>(name: u32, none: T, table: &[T]) -> T
    ensures { result ≡ get_or table.now name none }
{
    match table.get(name as usize) {
        Some(value) => *value,
        None => none,
    }
}

/// Sees to it that a table, whose names past its end have `none`, has at least that many places.
#[tactic(auto, using(crate::proofs::Noted::none_more))]
fn lengthen<T: Copy>(count: usize, none: T, table: &mut Vec<T>)
    requires { count ≤ vec_capacity table.old }
    ensures places { count ≤ length table.new.items }
    ensures same { (k : ℕ) → get_or table.new.items k none ≡ get_or table.old.items k none }
    ensures capacity { vec_capacity table.new ≡ vec_capacity table.old }
{
    while table.len() < count {
        table.push_reserved(none);
    }
}

/// Gives a name its value in a table, whose names past its end have `none`. There is room for it.
fn set_value<T: Copy>(name: u32, value: T, none: T, table: &mut Vec<T>)
    requires { name < vec_capacity table.old }
    ensures value { (k : ℕ) → get_or table.new.items k none
        ≡ (if k == name then value else get_or table.old.items k none) }
    ensures capacity { vec_capacity table.new ≡ vec_capacity table.old }
{
    lengthen(name as usize + 1, none, table);
    table[name as usize] = value;
}

/// What lines say of each name, in tables by name. There is room for all names, and as much of it
/// is used as the names take up to the greatest of which a table says something.
#[derive(Drop)]
pub struct Names {
    /// Whether the name was made.
    pub made: Vec<bool>,
    /// The last section that made or took the name, or 0.
    pub holder: Vec<u32>,
    /// The scheduler to which the name was given, or 0.
    pub addressee: Vec<u32>,
    ghost made_room: { MAX_NAME < vec_capacity made },
    ghost holder_room: { MAX_NAME < vec_capacity holder },
    ghost addressee_room: { MAX_NAME < vec_capacity addressee },
}

impl Names {
    ghost use Rattle.ea_trace.specs.Knows.{GivesOn, KnowsNames};

    /// Before the first line. No other call takes memory.
    pub fn new(alloc: Global) -> Result<Names, AllocError>
        ensures { IfOk result (KnowsNames [] 0) }
    {
        let room = MAX_NAME as usize + 1;
        Ok(Names {
            made: Vec::with_capacity(alloc, room)?,
            holder: Vec::with_capacity(alloc, room)?,
            addressee: Vec::with_capacity(alloc, room)?,
        })
    }

    /// Whether a line made the name.
    pub fn is_made(&self, name: u32) -> bool
        requires { name ≤ MAX_NAME }
        ensures { (section : ℕ) (earlier : Earlier) → KnowsNames earlier section self.now
            → result ≡ language.is_made name earlier }
    {
        value_of(name, false, &self.made)
    }

    /// Whether the section, which was begun last, holds the name.
    pub fn is_held(&self, name: u32, section: u32) -> bool
        requires name { name ≤ MAX_NAME }
        requires begun { 0 < section }
        ensures { (earlier : Earlier) → KnowsNames earlier section self.now
            → result ≡ language.is_held name earlier }
    {
        value_of(name, 0, &self.holder) == section
    }

    /// Whether a line gave the name.
    pub fn is_given(&self, name: u32) -> bool
        requires { name ≤ MAX_NAME }
        ensures { (section : ℕ) (earlier : Earlier) → KnowsNames earlier section self.now
            → result ≡ language.is_given name earlier }
    {
        value_of(name, 0, &self.addressee) > 0
    }

    /// Whether a line gave the name to the scheduler, from 1 on.
    pub fn is_given_to(&self, name: u32, scheduler: u32) -> bool
        requires { name ≤ MAX_NAME }
        ensures { result ≡ (scheduler == get_or self.now.addressee.items name 0) }
    {
        scheduler == value_of(name, 0, &self.addressee)
    }

    /// Notes an operation of the section that was begun last.
    pub fn note(&mut self, section: u32, op: Op)
        requires range { HasRanges op }
        requires given { GivesOn op }
        requires begun { 0 < section }
        ensures { (earlier : Earlier) → KnowsNames earlier section self.old
            → reuses earlier op ≡ false
            → KnowsNames (Operation op ∷ earlier) section self.new }
    {
        match op {
            Op::Alloc { name, .. } | Op::Realloc { fresh: name, .. } => {
                set_value(name, true, false, &mut self.made);
                set_value(name, section, 0, &mut self.holder);
            }
            Op::Give { name, to } => set_value(name, to, 0, &mut self.addressee),
            Op::Take { name, .. } => set_value(name, section, 0, &mut self.holder),
            _ => (),
        }
    }
}
