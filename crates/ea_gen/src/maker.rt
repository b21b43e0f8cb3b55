//! Makes the operations of one scheduler.
ghost use Rattle.std.specs.Prelude.{◌≡◌, ◌+◌, ◌<◌, ◌^◌, IfOk};
ghost use Rattle.ea_gen.specs.Generated.{after, allocs, base_of, frees, gives_own, moved};
ghost use Rattle.ea_gen.specs.Generated.{of_kind, operation_of, start, takes_given};
ghost use Rattle.ea_gen.specs.Places.{IsSection};

use crate::hand::Hand;
use crate::kind::{Kind, drawn_kind};
use crate::numbers::{DRAW_STEP, STEP_BYTES, next_number, seed_of};
use crate::section::Section;
use ea_model::{Op, OutOfMemory};
use std::alloc::Global;

/// A scheduler before one of its operations.
#[derive(Drop)]
pub struct Maker {
    /// Whose operations they are.
    pub section: Section,
    /// The number that is drawn for the operation.
    pub number: u32,
    /// The name that the operation makes, if it makes one.
    pub name: u32,
    /// The names at hand.
    pub hand: Hand,
    /// The names that were given to it.
    pub given: Vec<u32>,
    /// How many of these have a take.
    pub taken: usize,
    ghost low: { hand.low ≡ base_of section },
    ghost high: { hand.high ≡ base_of section + section.count },
}

impl Maker {
    ghost use Rattle.ea_gen.specs.Makers.{making};

    /// Before the first operation of a scheduler to which these names were given.
    pub fn new(alloc: Global, section: Section, seed: u32, given: Vec<u32>) -> Maker
        requires { IsSection section }
        ensures { making result ≡ start seed section given.items }
    {
        let base = section.base();
        Maker {
            section,
            number: next_number(seed_of(seed, section.scheduler)),
            name: base + 1,
            hand: Hand::new(alloc, base, base + section.count),
            given,
            taken: 0,
        }
    }

    /// Allocates.
    fn alloc(&mut self) -> Result<Op, OutOfMemory>
        ensures op { IfOk result (λ op. op ≡ allocs (making self.old)) }
        ensures names { IfOk result (λ op. making self.new ≡ moved op (making self.old)) }
    {
        self.hand.add(self.name)?;
        Ok(Op::Alloc {
            name: self.name,
            bytes: STEP_BYTES * (self.number / DRAW_STEP),
        })
    }

    /// Frees the oldest name at hand; where there is none, allocates.
    fn free(&mut self) -> Result<Op, OutOfMemory>
        ensures op { IfOk result (λ op. op ≡ frees (making self.old)) }
        ensures names { IfOk result (λ op. making self.new ≡ moved op (making self.old)) }
    {
        match self.hand.take_oldest() {
            Some(name) => Ok(Op::Free { name }),
            None => self.alloc(),
        }
    }

    /// Takes the first name that was given to it and has no take yet; where there is none, frees.
    fn take(&mut self) -> Result<Op, OutOfMemory>
        ensures op { IfOk result (λ op. op ≡ takes_given (making self.old)) }
        ensures names { IfOk result (λ op. making self.new ≡ moved op (making self.old)) }
    {
        if self.taken >= self.given.len() {
            return self.free();
        }
        let name = self.given[self.taken];
        self.hand.add(name)?;
        self.taken += 1;
        Ok(Op::Take { name, tries: 1 })
    }

    /// Gives the oldest of its own names at hand to the scheduler after it; where there is none,
    /// frees.
    fn give(&mut self) -> Result<Op, OutOfMemory>
        ensures op { IfOk result (λ op. op ≡ gives_own (making self.old)) }
        ensures names { IfOk result (λ op. making self.new ≡ moved op (making self.old)) }
    {
        let Section {
            scheduler,
            schedulers,
            ..
        } = self.section;
        if scheduler >= schedulers {
            return self.free();
        }
        match self.hand.take_own() {
            Some(name) => Ok(Op::Give {
                name,
                to: scheduler + 1,
            }),
            None => self.free(),
        }
    }

    /// An operation of a kind.
    fn make(&mut self, kind: Kind) -> Result<Op, OutOfMemory>
        ensures op { IfOk result (λ op. op ≡ of_kind kind (making self.old)) }
        ensures names { IfOk result (λ op. making self.new ≡ moved op (making self.old)) }
    {
        match kind {
            Kind::Allocate => self.alloc(),
            Kind::Free => self.free(),
            Kind::Take => self.take(),
            Kind::Give => self.give(),
        }
    }

    /// The next operation.
    pub fn next_op(&mut self) -> Result<Op, OutOfMemory>
        requires { self.old.name + 1 < 2 ^ 32 }
        ensures op { IfOk result (λ op. op ≡ operation_of (making self.old)) }
        ensures after { IfOk result (λ op. making self.new ≡ after op (making self.old)) }
    {
        let op = self.make(drawn_kind(self.number / DRAW_STEP))?;
        self.number = next_number(self.number);
        self.name += 1;
        Ok(op)
    }
}
