//! Words that are kept by pages.
ghost use Rattle.std.specs.Prelude.{◌≡◌, ℕ, ◌+◌, ◌*◌, ◌/◌, ◌<◌, ◌≤◌, true, false, [], IfOk, OnOk};
ghost use Rattle.std.specs.Prelude.{drop, get_or, length, map, replicate, set, slice_set, take};
ghost use Rattle.ea_contents.specs.Memory.{with_words};
ghost use Rattle.ea_contents.specs.Paging.{AreThere, IsThere, StaysThere};
ghost use Rattle.ea_contents.specs.declared.page.TheConstants.{PAGE_WORDS};

use crate::page::PAGE_WORDS;
use ea_model::OutOfMemory;
use std::alloc::Global;
use std::marker::Model;

/// Words, all 0 at first. A page of them is taken when one of its words is to be written. A page
/// that isn't there has zeros. Contracts see the words, and which pages are there.
#[derive(Drop)]
pub struct Pages {
    units: usize,
    pages: Vec<Vec<u32>>,
}

impl Model for Pages {
    ghost use Rattle.std.specs.Prelude.{◌*◌, ◌≤◌, All, length, map};
    ghost use Rattle.ea_contents.specs.Paging.{IsPage, Paged, there_in, words_in};
    ghost use Rattle.ea_contents.specs.declared.page.TheConstants.{PAGE_WORDS};

    ghost Value = { Paged };

    ghost view = { λ p. record {
      words = words_in p.units (map (λ page. page.items) p.pages.items);
      there = there_in (map (λ page. page.items) p.pages.items);
    } };

    ghost invariant = { λ p. (p.units ≤ length p.pages.items * PAGE_WORDS)
        × All (IsPage PAGE_WORDS) (map (λ page. page.items) p.pages.items) };
}

/// That many pages, none of which is there.
fn no_pages(alloc: Global, count: usize) -> Result<Vec<Vec<u32>>, OutOfMemory>
    ensures { IfOk result (λ pages. map (λ page. page.items) pages.items ≡ replicate count []) }
{
    let mut pages = Vec::new(alloc);
    for _ in 0..count {
        pages.push(Vec::new(alloc))?;
    }
    Ok(pages)
}

impl Pages {
    /// That many words, all 0. No page is there.
    pub fn new(alloc: Global, units: usize) -> Result<Pages, OutOfMemory>
        ensures words { IfOk result (λ p. p.words ≡ replicate units 0) }
        ensures there { IfOk result (λ p. p.there
            ≡ replicate (units / PAGE_WORDS + 1) false) }
    {
        let pages = no_pages(alloc, units / PAGE_WORDS + 1)?;
        Ok(Pages { units, pages })
    }

    /// How many words it has.
    pub fn len(&self) -> usize
        ensures { result ≡ length self.now.words }
    {
        self.units
    }

    /// The word with that index.
    pub fn word(&self, at: usize) -> u32
        requires { at < length self.now.words }
        ensures { result ≡ get_or self.now.words at 0 }
    {
        let page = &self.pages[at / PAGE_WORDS];
        if page.is_empty() {
            return 0;
        }
        page[at % PAGE_WORDS]
    }

    /// Takes the page with that index, if it isn't there yet.
    fn hold_page(&mut self, alloc: Global, index: usize) -> Result<(), OutOfMemory>
        requires { index * PAGE_WORDS < length self.old.words }
        ensures words { self.new.words ≡ self.old.words }
        ensures there { OnOk result (get_or self.new.there index false ≡ true) }
        ensures kept { (k : ℕ) → get_or self.old.there k false ≡ true
            → get_or self.new.there k false ≡ true }
    {
        if self.pages[index].is_empty() {
            self.pages[index] = vec![in alloc; 0; PAGE_WORDS]?;
        }
        Ok(())
    }

    /// Takes the pages of that many words from `at` on that aren't there yet. No word changes, and
    /// what was there stays there.
    pub fn hold(&mut self, alloc: Global, at: usize, count: usize) -> Result<(), OutOfMemory>
        requires { at + count ≤ length self.old.words }
        ensures words { self.new.words ≡ self.old.words }
        ensures there { OnOk result (AreThere at count self.new) }
        ensures kept { StaysThere self.old self.new }
    {
        let _ = &self.units;
        if count == 0 {
            return Ok(());
        }
        for index in at / PAGE_WORDS..(at + count - 1) / PAGE_WORDS + 1 {
            self.hold_page(alloc, index)?;
        }
        Ok(())
    }

    /// The word with that index becomes the value.
    pub fn set(&mut self, at: usize, value: u32)
        requires within { at < length self.old.words }
        requires there { IsThere at self.old }
        ensures words { self.new.words ≡ slice_set self.old.words at value }
        ensures there { self.new.there ≡ self.old.there }
    {
        self.pages[at / PAGE_WORDS][at % PAGE_WORDS] = value;
    }

    /// The word at `at` and those after it, that many, become 0.
    pub fn clear(&mut self, at: usize, count: usize)
        requires fits { at + count ≤ length self.old.words }
        requires there { AreThere at count self.old }
        ensures words { self.new.words ≡ with_words at (replicate count 0) self.old.words }
        ensures there { self.new.there ≡ self.old.there }
    {
        let _ = &self.units;
        for k in 0..count {
            self.set(at + k, 0);
        }
    }

    /// Copies words, the first one first.
    fn copy_forward(&mut self, from: usize, at: usize, count: usize)
        requires order { at ≤ from }
        requires fits { from + count ≤ length self.old.words }
        requires there { AreThere at count self.old }
        ensures words { self.new.words
            ≡ with_words at (take count (drop from self.old.words)) self.old.words }
        ensures there { self.new.there ≡ self.old.there }
    {
        let _ = &self.units;
        for k in 0..count {
            let word = self.word(from + k);
            self.set(at + k, word);
        }
    }

    /// Copies words, the last one first.
    fn copy_backward(&mut self, from: usize, at: usize, count: usize)
        requires order { from ≤ at }
        requires fits { at + count ≤ length self.old.words }
        requires there { AreThere at count self.old }
        ensures words { self.new.words
            ≡ with_words at (take count (drop from self.old.words)) self.old.words }
        ensures there { self.new.there ≡ self.old.there }
    {
        let _ = &self.units;
        let mut left = count;
        while left > 0 {
            left -= 1;
            let word = self.word(from + left);
            self.set(at + left, word);
        }
    }

    /// Copies that many words from `from` on to the word at `at` and those after it.
    pub fn copy(&mut self, from: usize, at: usize, count: usize)
        requires from { from + count ≤ length self.old.words }
        requires fits { at + count ≤ length self.old.words }
        requires there { AreThere at count self.old }
        ensures words { self.new.words
            ≡ with_words at (take count (drop from self.old.words)) self.old.words }
        ensures there { self.new.there ≡ self.old.there }
    {
        if at <= from {
            self.copy_forward(from, at, count);
        } else {
            self.copy_backward(from, at, count);
        }
    }
}
