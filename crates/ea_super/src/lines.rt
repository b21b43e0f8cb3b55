//! What one line says, by itself.
ghost use Rattle.std.specs.Prelude.{◌≡◌, ◌≤◌, true, IfSome};
ghost use Rattle.ea_model.specs.Words.{words};
ghost use Rattle.ea_super.specs.Asked.{IsAsked, asks_pages};
ghost use Rattle.ea_super.specs.Lines.{back_in, line_of_words, pages_in, section_in, take_in};

use ea_model::MAX_PAGES;
use ea_model::words::{first_word, number};
use ea_segments::Request;
use ea_trace::is_comment;
use ea_trace::words::{bare, name, one_word, scheduler, two_words};

/// What one line says.
#[derive(Debug, Clone, Copy, PartialEq, Eq)]
pub enum Line {
    /// A line without words, or a comment.
    Skipped,
    /// `super`: sections may follow.
    Super,
    /// `scheduler I`: a section begins. A number past 2^32 - 1 is read as that one, which no
    /// scheduler has.
    Section { number: u32 },
    /// A request of the section.
    Asks { request: Request },
    /// `end`: nothing but lines that are skipped may follow.
    End,
    /// No line of the language.
    Unreadable,
}

/// The begin of a section.
fn section(rest: &[u8]) -> Option<Line>
    ensures { result ≡ section_in (words rest.now) }
{
    Some(Line::Section {
        number: scheduler(one_word(rest)?)?,
    })
}

/// The pages that a word spells, 1 to `MAX_PAGES`.
fn pages(word: &[u8]) -> Option<u32>
    ensures exact { result ≡ pages_in word.now }
    ensures some { IfSome result (λ pages. 1 ≤ pages) }
{
    number(word, 1, MAX_PAGES)
}

fn take(rest: &[u8]) -> Option<Request>
    ensures exact { result ≡ take_in (words rest.now) }
    ensures asked { IfSome result (λ request. asks_pages request ≡ true) }
{
    let (segment, size) = two_words(rest)?;
    Some(Request::Take {
        name: name(segment)?,
        pages: pages(size)?,
    })
}

fn back(rest: &[u8]) -> Option<Request>
    ensures { result ≡ back_in (words rest.now) }
{
    Some(Request::Back {
        name: name(one_word(rest)?)?,
    })
}

/// The line that a first word and the rest after it say; None where it is malformed.
fn command(first: &[u8], rest: &[u8]) -> Option<Line>
    ensures exact { result ≡ Rattle.ea_super.specs.Lines.command first.now (words rest.now) }
    ensures asked { IfSome result IsAsked }
{
    if first == b"super".as_slice() {
        return bare(Line::Super, rest);
    }
    if first == b"scheduler".as_slice() {
        return section(rest);
    }
    if first == b"take".as_slice() {
        let request = take(rest)?;
        return Some(Line::Asks { request });
    }
    if first == b"back".as_slice() {
        let request = back(rest)?;
        return Some(Line::Asks { request });
    }
    if first == b"end".as_slice() {
        return bare(Line::End, rest);
    }
    None
}

/// What a line says.
pub fn read_line(text: &[u8]) -> Line
    ensures line { result ≡ line_of_words (words text.now) }
    ensures asked { IsAsked result }
{
    let Some((word, rest)) = first_word(text) else {
        return Line::Skipped;
    };
    if is_comment(word) {
        return Line::Skipped;
    }
    match command(word, rest) {
        Some(line) => line,
        None => Line::Unreadable,
    }
}
