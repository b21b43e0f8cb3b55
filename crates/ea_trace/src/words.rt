//! The words of a line, and the numbers that they spell.
ghost use Rattle.std.specs.Prelude.{◌≡◌};
ghost use Rattle.std.specs.Option.{option_map};
ghost use Rattle.ea_model.specs.Words.{words};
ghost use Rattle.ea_trace.specs.Lines.{bytes_in, count_in, name_in, scheduler_in, only_word};
ghost use Rattle.ea_trace.specs.Lines.{both_words, three_words, bare};

use crate::lines::MAX_READ;
use ea_model::words::{first_word, number, numeral};
use ea_model::{MAX_BYTES, MAX_NAME};

/// The one word of a text; None where it has none, or more.
pub fn one_word(rest: &[u8]) -> Option<&[u8]>
    ensures { option_map (λ w. w.now) result ≡ only_word (words rest.now) }
{
    let (word, rest) = first_word(rest)?;
    match first_word(rest) {
        None => Some(word),
        Some(_) => None,
    }
}

/// The two words of a text; None where it has fewer, or more.
pub fn two_words(rest: &[u8]) -> Option<(&[u8], &[u8])>
    ensures { option_map (λ w. (w.0.now, w.1.now)) result ≡ both_words (words rest.now) }
{
    let (first, rest) = first_word(rest)?;
    let second = one_word(rest)?;
    Some((first, second))
}

/// The three words of a text; None where it has fewer, or more.
pub fn three_words(rest: &[u8]) -> Option<(&[u8], &[u8], &[u8])>
    ensures { option_map (λ w. (w.0.now, w.1.now, w.2.now)) result
        ≡ Rattle.ea_trace.specs.Lines.three_words (words rest.now) }
{
    let (first, rest) = first_word(rest)?;
    let (second, third) = two_words(rest)?;
    Some((first, second, third))
}

/// What a line that is its keyword alone says; None where words follow.
pub fn bare<T: Copy>(says: T, rest: &[u8]) -> Option<T>
    ensures { result ≡ Rattle.ea_trace.specs.Lines.bare says (words rest.now) }
{
    match first_word(rest) {
        None => Some(says),
        Some(_) => None,
    }
}

/// The name that a word spells, 1 to `MAX_NAME`.
pub fn name(word: &[u8]) -> Option<u32>
    ensures { result ≡ name_in word.now }
{
    number(word, 1, MAX_NAME)
}

/// The bytes of a request that a word spells, 0 to `MAX_BYTES`.
pub fn bytes(word: &[u8]) -> Option<u32>
    ensures { result ≡ bytes_in word.now }
{
    number(word, 0, MAX_BYTES)
}

/// The number of a scheduler that a word spells, be there one or not; `MAX_READ` for a greater one.
pub fn scheduler(word: &[u8]) -> Option<u32>
    ensures { result ≡ scheduler_in word.now }
{
    let value = numeral(word)?;
    Some(value.min(u64::from(MAX_READ)) as u32)
}

/// The count of operations that a word spells, from 1 on; `MAX_READ` for a greater one.
pub fn count(word: &[u8]) -> Option<u32>
    ensures { result ≡ count_in word.now }
{
    match scheduler(word) {
        Some(0) | None => None,
        count => count,
    }
}
