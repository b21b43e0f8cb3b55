//! A memory with one word for each unit of the super carrier.
ghost use Rattle.std.specs.Prelude.{◌≡◌, ◌+◌, ◌<◌, ◌≤◌, Some, IfOk, IfSome, OnErr, OnOk, get_or};
ghost use Rattle.std.specs.Prelude.{length, min, replicate, slice_set, take};
ghost use Rattle.ea_contents.specs.Agreeing.{memory_made, source_in};
ghost use Rattle.ea_contents.specs.Memory.{with_words, words_from, words_of};
ghost use Rattle.ea_contents.specs.Paging.{AreThere, HasWords, StaysThere};
ghost use Rattle.ea_contents.specs.Stored.{IsStored};

use crate::pages::Pages;
use ea_model::{Extent, OutOfMemory};
use std::alloc::Global;
use std::marker::Model;

/// A word for each unit of the super carrier. Memory for them is taken by pages, where blocks get
/// their words. Contracts see the words, and which pages are there.
#[derive(Drop)]
pub struct Memory {
    pages: Pages,
}

impl Model for Memory {
    ghost use Rattle.ea_contents.specs.Paging.{Paged};

    ghost Value = { Paged };

    ghost view = { λ m. m.pages };
}

impl Memory {
    /// A memory for that many units, all words of which are 0.
    pub fn new(alloc: Global, units: usize) -> Result<Memory, OutOfMemory>
        ensures { IfOk result (λ m. m.words ≡ replicate units 0) }
    {
        Ok(Memory {
            pages: Pages::new(alloc, units)?,
        })
    }

    /// How many words it has.
    pub fn len(&self) -> usize
        ensures { result ≡ length self.now.words }
    {
        self.pages.len()
    }

    /// The word of the block with that index.
    pub fn read(&self, block: Extent, index: u32) -> u32
        requires stored { IsStored block self.now.words }
        requires within { index + 1 < block.units }
        ensures { result ≡ get_or (words_of block self.now.words) index 0 }
    {
        self.pages.word(block.first as usize + 1 + index as usize)
    }

    /// The word of the block with that index becomes the value.
    pub fn write(&mut self, block: Extent, index: u32, value: u32)
        requires stored { IsStored block self.old.words }
        requires there { HasWords block self.old }
        requires within { index + 1 < block.units }
        ensures words { self.new.words ≡ slice_set self.old.words (words_from block + index) value }
        ensures there { self.new.there ≡ self.old.there }
    {
        self.pages
            .set(block.first as usize + 1 + index as usize, value);
    }

    /// Copies the words of a block, if there is one, to the word at `at` and those after it, up to
    /// `most` of them. Answers how many it copied.
    fn carry(&mut self, at: usize, most: usize, from: Option<Extent>) -> usize
        requires from { IfSome from (λ old. IsStored old self.old.words) }
        requires fits { at + most ≤ length self.old.words }
        requires there { AreThere at most self.old }
        ensures count { result ≡ min most (length (source_in self.old.words from)) }
        ensures carried { self.new.words ≡ with_words at
            (take most (source_in self.old.words from)) self.old.words }
        ensures there { self.new.there ≡ self.old.there }
    {
        let Some(old) = from else {
            return 0;
        };
        let count = most.min(old.units as usize - 1);
        self.pages.copy(old.first as usize + 1, at, count);
        count
    }

    /// A new block gets its words: those of the block that it takes over, if there is one, as far as
    /// they fit, and zeros after them. The old block may have units of the new one. It fails only
    /// where there is no memory, and no word changes then.
    pub fn bring(
        &mut self,
        alloc: Global,
        block: Extent,
        from: Option<Extent>,
    ) -> Result<(), OutOfMemory>
        requires stored { IsStored block self.old.words }
        requires from { IfSome from (λ old. IsStored old self.old.words) }
        ensures words { OnOk result (self.new.words
            ≡ memory_made self.old.words (Some block) from) }
        ensures there { OnOk result (HasWords block self.new) }
        ensures kept { StaysThere self.old self.new }
        ensures fails { OnErr result (self.new.words ≡ self.old.words) }
    {
        let at = block.first as usize + 1;
        let count = block.units as usize - 1;
        self.pages.hold(alloc, at, count)?;
        let carried = self.carry(at, count, from);
        self.pages.clear(at + carried, count - carried);
        Ok(())
    }
}
