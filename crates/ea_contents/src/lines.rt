//! What one line says, if it is one of a write or of a read.
ghost use Rattle.std.specs.Prelude.{◌≡◌, ◌≤◌, IfSome};
ghost use Rattle.ea_model.specs.Words.{words};
ghost use Rattle.ea_model.specs.declared.units.TheConstants.{MAX_NAME};
ghost use Rattle.ea_contents.specs.Language as language;
ghost use Rattle.ea_contents.specs.Language.{name_of, read_in, word_in, write_in};

use crate::access::Access;
use ea_model::words::{first_word, number};
use ea_trace::words::{name, three_words, two_words};

/// An index or a value that a word spells, 0 to 2^32 - 1.
fn word_in(word: &[u8]) -> Option<u32>
    ensures { result ≡ word_in word.now }
{
    number(word, 0, u32::MAX)
}

/// The write that the words after the first one spell.
fn write_in(rest: &[u8]) -> Option<Access>
    ensures { result ≡ write_in (words rest.now) }
{
    let (block, index, value) = three_words(rest)?;
    Some(Access::Write {
        name: name(block)?,
        index: word_in(index)?,
        value: word_in(value)?,
    })
}

/// The read that the words after the first one spell.
fn read_in(rest: &[u8]) -> Option<Access>
    ensures { result ≡ read_in (words rest.now) }
{
    let (block, index) = two_words(rest)?;
    Some(Access::Read {
        name: name(block)?,
        index: word_in(index)?,
    })
}

/// Whether a line begins as one of a write or of a read.
pub fn is_access(text: &[u8]) -> bool
    ensures { result ≡ language.is_access (words text.now) }
{
    match first_word(text) {
        Some((word, _)) => word == b"write".as_slice() || word == b"read".as_slice(),
        None => false,
    }
}

/// The write or the read that a line says; None where it is no such line, or malformed.
pub fn access_in(text: &[u8]) -> Option<Access>
    ensures exact { result ≡ language.access_in (words text.now) }
    ensures named { IfSome result (λ access. name_of access ≤ MAX_NAME) }
{
    let (word, rest) = first_word(text)?;
    if word == b"write".as_slice() {
        return write_in(rest);
    }
    if word == b"read".as_slice() {
        return read_in(rest);
    }
    None
}

impl Access {
    /// The name whose word is written or read.
    pub fn name(self) -> u32
        ensures { result ≡ name_of self }
    {
        match self {
            Access::Write { name, .. } | Access::Read { name, .. } => name,
        }
    }
}
