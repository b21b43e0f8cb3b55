//! The letters of a `types` line.
ghost use Rattle.std.specs.Prelude.{◌≡◌, ◌<◌, IfOk, IfSome, is_some, length, option_map};
ghost use Rattle.ea_model.specs.Words.{words};
ghost use Rattle.ea_types.specs.Language as language;
ghost use Rattle.ea_types.specs.Language.{letters_in, types_in};

use crate::input::MAX_TYPES;
use ea_model::words::first_word;
use ea_model::{Letter, List, OutOfMemory};
use ea_trace::{letter_at, letter_word};
use std::alloc::Global;

/// The place among letters of the one that a word is, from 0.
pub fn place_in(letters: &[Letter], word: &[u8]) -> Option<usize>
    ensures place { result ≡ language.place_in letters.now word.now }
    ensures within { IfSome result (λ k. k < length letters.now) }
{
    for i in 0..letters.len() {
        if word == letter_word(letters[i]) {
            return Some(i);
        }
    }
    None
}

/// Whether none of these letters is there twice.
fn are_different(letters: &[Letter]) -> bool
    ensures { result ≡ language.are_different letters.now }
{
    let mut rest = letters;
    while let [letter, after @ ..] = rest {
        if place_in(after, letter_word(*letter)).is_some() {
            return false;
        }
        rest = after;
    }
    true
}

/// Whether these are 1 to `MAX_TYPES` different letters.
fn are_types(letters: &[Letter]) -> bool
    ensures { result ≡ language.are_types letters.now }
{
    !letters.is_empty() && letters.len() <= MAX_TYPES && are_different(letters)
}

/// The letters that the words of a text are, if each is one.
fn letters_in(alloc: Global, text: &[u8]) -> Result<Option<List<Letter>>, OutOfMemory>
    ensures { IfOk result (λ letters. option_map (λ l. l.items) letters
        ≡ letters_in (words text.now)) }
{
    let mut letters = List::new(alloc);
    let mut rest = text;
    while let Some((word, after)) = first_word(rest) {
        let Some(letter) = letter_at(word) else {
            return Ok(None);
        };
        letters.push(letter)?;
        rest = after;
    }
    Ok(Some(letters))
}

/// The types of a `types` line; None where it isn't one.
pub fn types_in(alloc: Global, line: &[u8]) -> Result<Option<List<Letter>>, OutOfMemory>
    ensures { IfOk result (λ letters. option_map (λ l. l.items) letters
        ≡ types_in (words line.now)) }
{
    let Some((word, rest)) = first_word(line) else {
        return Ok(None);
    };
    if word != b"types".as_slice() {
        return Ok(None);
    }
    let Some(letters) = letters_in(alloc, rest)? else {
        return Ok(None);
    };
    if are_types(letters.as_slice()) {
        Ok(Some(letters))
    } else {
        Ok(None)
    }
}
