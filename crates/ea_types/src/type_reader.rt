//! The readers of the traces of the types.
ghost use Rattle.std.specs.Prelude.{◌≡◌, ◌+◌, ◌<◌, ◌≤◌, ◌^◌, ℕ, Some, length, All, IfOk, OnOk};
ghost use Rattle.ea_model.specs.Trace.{IsValidTrace};
ghost use Rattle.ea_model.specs.declared.units.TheConstants.{MAX_SCHEDULERS};
ghost use Rattle.ea_trace.specs.Language.{LineWords, WordLines};
ghost use Rattle.ea_trace.specs.Lines.{line_of_words};
ghost use Rattle.ea_trace.specs.Ranges.{InRange};
ghost use Rattle.ea_trace.specs.Says.{said};
ghost use Rattle.ea_types.specs.Language.{AreSkipped, traces_by};
ghost use Rattle.ea_types.specs.Readers as readers;
ghost use Rattle.ea_types.specs.Readers.{GivesEach, HasRead, HasRoom, TypeLines, and_line};
ghost use Rattle.ea_types.specs.Readers.{begun_with, letters_of, own_word};

use ea_model::{Letter, List, OutOfMemory, Trace};
use ea_trace::{Line, TraceFault, TraceReader, letter_word};
use std::alloc::Global;

/// The reader of the trace of one type.
#[derive(Drop)]
pub struct TypeReader {
    /// The type.
    pub letter: Letter,
    /// The reader, which takes what the lines are in the type's trace.
    pub reader: TraceReader,
}

/// Whether a line with this word for a type, if it has one, is another type's.
fn is_others(letter: Letter, word: Option<&[u8]>) -> bool
    ensures { result ≡ readers.is_others letter (own_word word.entry) }
{
    match word {
        Some(word) => word != letter_word(letter),
        None => false,
    }
}

impl TypeReader {
    /// A reader for schedulers 1 to `schedulers` that has taken that many skipped lines, and then
    /// the line of its type.
    fn new(
        alloc: Global,
        schedulers: u32,
        letter: Letter,
        skipped: u32,
    ) -> Result<TypeReader, OutOfMemory>
        requires schedulers { schedulers ≤ MAX_SCHEDULERS }
        requires room { skipped + 1 < 2 ^ 32 }
        ensures letter { IfOk result (λ t. t.letter ≡ letter) }
        ensures taken { IfOk result (λ t. (lines : WordLines) → AreSkipped lines
            → length lines ≡ skipped → HasRead schedulers (begun_with lines) t) }
    {
        let mut reader = TraceReader::new(alloc, schedulers)?;
        for _count in 0..skipped {
            reader.take(alloc, Line::Skipped)?;
        }
        reader.take(alloc, Line::Letter { letter })?;
        Ok(TypeReader { letter, reader })
    }

    /// Takes a line of all types, or the operation of the type with this word, which is a skipped
    /// line to any other type.
    fn take(
        &mut self,
        alloc: Global,
        word: Option<&[u8]>,
        line: Line<&[u8]>,
    ) -> Result<(), OutOfMemory>
        requires range { InRange (said line) }
        requires room { HasRoom self.old }
        ensures letter { self.new.letter ≡ self.old.letter }
        ensures taken { OnOk result ((n : ℕ) (lines : TypeLines) (words : LineWords)
            → HasRead n lines self.old → said line.entry ≡ line_of_words words
            → HasRead n (and_line lines (own_word word.entry) words) self.new) }
    {
        if is_others(self.letter, word) {
            return self.reader.take(alloc, Line::Skipped);
        }
        self.reader.take(alloc, line)
    }
}

/// A reader for each type, for schedulers 1 to `schedulers`, that has taken that many skipped
/// lines, and then the line of its type.
pub fn readers_of(
    alloc: Global,
    schedulers: u32,
    letters: &[Letter],
    skipped: u32,
) -> Result<Vec<TypeReader>, OutOfMemory>
    requires schedulers { schedulers ≤ MAX_SCHEDULERS }
    requires room { skipped + 1 < 2 ^ 32 }
    ensures letters { IfOk result (λ ts. letters_of ts.items ≡ letters.now) }
    ensures taken { IfOk result (λ ts. (lines : WordLines) → AreSkipped lines
        → length lines ≡ skipped → All (HasRead schedulers (begun_with lines)) ts.items) }
{
    let mut readers = Vec::new(alloc);
    for letter in letters {
        readers.push(TypeReader::new(alloc, schedulers, *letter, skipped)?)?;
    }
    Ok(readers)
}

/// Each reader takes a line of all types, or what the operation of the type with this word is to
/// its type.
pub fn take_each(
    readers: &mut [TypeReader],
    alloc: Global,
    word: Option<&[u8]>,
    line: Line<&[u8]>,
) -> Result<(), OutOfMemory>
    requires range { InRange (said line) }
    requires room { All HasRoom readers.old }
    ensures letters { letters_of readers.new ≡ letters_of readers.old }
    ensures taken { OnOk result ((n : ℕ) (lines : TypeLines) (words : LineWords)
        → All (HasRead n lines) readers.old → said line.entry ≡ line_of_words words
        → All (HasRead n (and_line lines (own_word word.entry) words)) readers.new) }
{
    for reader in readers.iter_mut() {
        reader.take(alloc, word, line)?;
    }
    Ok(())
}

/// The traces of the types in order, or the refusal of the first one that is refused.
pub fn finish_each(alloc: Global, readers: Vec<TypeReader>) -> Result<List<Trace>, TraceFault>
    ensures given { (n : ℕ) (lines : TypeLines) → All (HasRead n lines) readers.items
        → GivesEach result (traces_by n lines (letters_of readers.items)) }
    ensures valid { (n : ℕ) (lines : TypeLines) → All (HasRead n lines) readers.items
        → IfOk result (λ ts. All (IsValidTrace n) ts.items) }
{
    let mut traces = List::new(alloc);
    for reader in readers {
        traces.push(reader.reader.finish()?)?;
    }
    Ok(traces)
}
