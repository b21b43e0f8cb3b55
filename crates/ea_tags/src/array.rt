//! The units of a carrier, a word each.
ghost use Rattle.std.specs.Prelude.{◌≡◌, ◌<◌, ◌≤◌, replicate, length, slice_index, slice_set};
ghost use Rattle.std.specs.Prelude.{IfOk};
ghost use Rattle.ea_tags.specs.Words.{code};
ghost use Rattle.ea_tags.specs.declared.header.TheConstants.{MAX_SIZE};

use crate::header::{Header, decode, encode};
use crate::paged::PagedArray;
use ea_model::OutOfMemory;
use std::alloc::Global;
use std::marker::Model;

/// The units of a carrier. Contracts see them as the list of their words. No memory is written for
/// units whose words are not set.
#[derive(Drop)]
pub struct UnitArray {
    words: PagedArray,
}

impl Model for UnitArray {
    ghost use Rattle.std.specs.Prelude.{ℕ, List};

    ghost Value = { List ℕ };

    ghost view = { λ a. a.words };
}

impl UnitArray {
    /// That many units, all of them 0.
    pub fn new(alloc: Global, units: u32) -> Result<UnitArray, OutOfMemory>
        ensures { IfOk result (λ a. a ≡ replicate units 0) }
    {
        Ok(UnitArray {
            words: PagedArray::new(alloc, units)?,
        })
    }

    /// How many units there are.
    pub fn len(&self) -> u32
        ensures { result ≡ length self.now }
    {
        self.words.len()
    }

    /// The header in the unit at `at`.
    pub fn header(&self, at: u32) -> Header
        requires { at < length self.now }
        ensures word { code result ≡ slice_index self.now at }
        ensures small { result.size ≤ MAX_SIZE }
    {
        decode(self.words.get(at))
    }

    /// Puts the word of a header into the unit at `at`.
    pub fn set_header(&mut self, at: u32, header: Header)
        requires within { at < length self.old }
        requires small { header.size ≤ MAX_SIZE }
        ensures { self.new ≡ slice_set self.old at (code header) }
    {
        self.words.set(at, encode(header));
    }

    /// The number of units in the unit at `at`, the last one of a gap.
    pub fn footer(&self, at: u32) -> u32
        requires { at < length self.now }
        ensures { result ≡ slice_index self.now at }
    {
        self.words.get(at)
    }

    /// Puts a gap's number of units into the unit at `at`, its last one.
    pub fn set_footer(&mut self, at: u32, size: u32)
        requires { at < length self.old }
        ensures { self.new ≡ slice_set self.old at size }
    {
        self.words.set(at, size);
    }
}
