//! The sections that took names.
ghost use Rattle.std.specs.Prelude.{◌≡◌, ℕ, ◌==◌, if◌then◌else◌, [], get_or, OnOk};

use ea_model::OutOfMemory;
use std::alloc::Global;

/// The section that took each name last, by name; 0, as past the end, for a name that none took.
#[derive(Drop)]
pub struct Takers {
    pub sections: Vec<u32>,
}

impl Takers {
    /// No name was taken.
    pub fn new(alloc: Global) -> Takers
        ensures { result.sections.items ≡ [] }
    {
        Takers {
            sections: Vec::new(alloc),
        }
    }

    /// The section that took the name last, or 0.
    pub fn section_of(&self, name: u32) -> u32
        ensures { result ≡ get_or self.now.sections.items name 0 }
    {
        match self.sections.get(name as usize) {
            Some(section) => *section,
            None => 0,
        }
    }

    /// Notes that a section takes the name.
    #[tactic(auto, using(ea_trace::proofs::Noted::none_more))]
    pub fn note(&mut self, name: u32, section: u32) -> Result<(), OutOfMemory>
        ensures { OnOk result ((k : ℕ) → get_or self.new.sections.items k 0
            ≡ (if k == name then section else get_or self.old.sections.items k 0)) }
    {
        let place = name as usize;
        while self.sections.len() <= place {
            self.sections.push(0)?;
        }
        self.sections[place] = section;
        Ok(())
    }
}
