//! Whose each line of the sections is.
ghost use Rattle.std.specs.Prelude.{◌≡◌, [], ◌∷◌, ◌++◌, false, true, map, OnOk, IfOk};
ghost use Rattle.ea_types.specs.Sections.{all_parts};

use ea_model::{List, OutOfMemory};
use std::alloc::Global;
use std::mem;

/// Whose each line of the sections so far is, by the places of the types.
#[derive(Drop)]
pub struct Sections {
    /// The sections that are over.
    pub parts: List<List<u8>>,
    /// The section that was begun last.
    pub part: List<u8>,
    /// Whether one was begun.
    pub begun: bool,
}

impl Sections {
    /// Before the first section.
    pub fn new(alloc: Global) -> Sections
        ensures parts { result.parts.items ≡ [] }
        ensures part { result.part.items ≡ [] }
        ensures begun { result.begun ≡ false }
    {
        Sections {
            parts: List::new(alloc),
            part: List::new(alloc),
            begun: false,
        }
    }

    /// Begins a section.
    pub fn begin(&mut self, alloc: Global) -> Result<(), OutOfMemory>
        ensures parts { OnOk result (map (λ p. p.items) self.new.parts.items
            ≡ all_parts self.old) }
        ensures part { self.new.part.items ≡ [] }
        ensures begun { self.new.begun ≡ true }
    {
        let part = mem::replace(&mut self.part, List::new(alloc));
        let begun = mem::replace(&mut self.begun, true);
        if begun {
            self.parts.push(part)?;
        }
        Ok(())
    }

    /// Adds a line of the section that was begun last.
    pub fn push(&mut self, place: u8) -> Result<(), OutOfMemory>
        ensures parts { self.new.parts ≡ self.old.parts }
        ensures part { OnOk result (self.new.part.items ≡ self.old.part.items ++ place ∷ []) }
        ensures begun { self.new.begun ≡ self.old.begun }
    {
        self.part.push(place)
    }

    /// All sections.
    pub fn finish(self) -> Result<List<List<u8>>, OutOfMemory>
        ensures { IfOk result (λ parts. map (λ p. p.items) parts.items ≡ all_parts self) }
    {
        let Sections {
            mut parts,
            part,
            begun,
        } = self;
        if begun {
            parts.push(part)?;
        }
        Ok(parts)
    }
}
