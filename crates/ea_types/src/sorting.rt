//! Whose line a line is.
ghost use Rattle.std.specs.Prelude.{◌≡◌, IfSome};
ghost use Rattle.ea_model.specs.Words.{words};
ghost use Rattle.ea_types.specs.Language as language;
ghost use Rattle.ea_types.specs.Sorting.{Sorts};

use crate::letters::place_in;
use ea_model::Letter;
use ea_model::words::first_word;
use ea_trace::{Keyword, is_comment, keyword_at, kind_at};

/// Whose line a line is.
#[derive(Clone, Copy)]
pub enum Whose<'a> {
    /// One of all types, with its keyword, if it has one.
    Common {
        keyword: Option<Keyword>,
    },
    /// The operation of one type: the word of its letter, its place among the types, and the
    /// operation.
    Own {
        word: &'a [u8],
        place: usize,
        operation: &'a [u8],
    },
}

/// Whether a line with this keyword, if it has one, stands between sections.
fn is_border(keyword: Option<Keyword>) -> bool
    ensures { result ≡ language.is_border keyword }
{
    matches!(
        keyword,
        Some(Keyword::Section | Keyword::Threads | Keyword::Schedule | Keyword::End)
    )
}

/// Whether it is one that this language lacks.
fn is_barred(keyword: Option<Keyword>) -> bool
    ensures { result ≡ language.is_barred keyword }
{
    matches!(keyword, Some(Keyword::Stop | Keyword::Generate))
}

/// Whether it begins a section.
pub fn begins_by(keyword: Option<Keyword>) -> bool
    ensures { result ≡ language.begins_by keyword }
{
    matches!(keyword, Some(Keyword::Section))
}

/// Whether operation lines stand after a line of all types, by whether such lines stand where it
/// does.
pub fn inside_by(inside: bool, keyword: Option<Keyword>) -> bool
    ensures { result ≡ language.inside_by inside keyword }
{
    match keyword {
        Some(Keyword::Section) => true,
        Some(Keyword::Threads | Keyword::Schedule | Keyword::End) => false,
        _ => inside,
    }
}

/// Whether a text begins with the name of an operation.
fn names_operation(text: &[u8]) -> bool
    ensures { result ≡ language.names_operation (words text.now) }
{
    match first_word(text) {
        Some((word, _)) => kind_at(word).is_some(),
        None => false,
    }
}

/// Whose a line is, by whether operation lines stand where it does; None where it is wrong by
/// itself.
pub fn sort<'a>(letters: &[Letter], inside: bool, line: &'a [u8]) -> Option<Whose<'a>>
    ensures { Sorts letters.now inside (words line.now) result }
{
    let Some((word, rest)) = first_word(line) else {
        return Some(Whose::Common { keyword: None });
    };
    let keyword = keyword_at(word);
    if is_barred(keyword) {
        return None;
    }
    if !inside || is_comment(word) || is_border(keyword) {
        return Some(Whose::Common { keyword });
    }
    let place = place_in(letters, word)?;
    if !names_operation(rest) {
        return None;
    }
    Some(Whose::Own {
        word,
        place,
        operation: rest,
    })
}
