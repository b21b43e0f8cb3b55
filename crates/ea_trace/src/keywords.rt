//! The words with a meaning of their own: keywords, names of operations, and letters.
ghost use Rattle.std.specs.Prelude.{◌≡◌};
ghost use Rattle.ea_trace.specs.Lines.{keyword_in, kind_in, letter_in};

use ea_model::Letter;

/// What the first word of a line names, if it is a keyword: the kind of `Line` of this name.
#[derive(Debug, Clone, Copy, PartialEq, Eq)]
pub enum Keyword {
    /// `type`.
    Letter,
    /// `scheduler`.
    Section,
    /// `stop`.
    Stop,
    /// `threads`.
    Threads,
    /// `schedule`.
    Schedule,
    /// `generate`.
    Generate,
    /// `end`.
    End,
}

/// The kind of an operation: that of `Op` of this name.
#[derive(Debug, Clone, Copy, PartialEq, Eq)]
pub enum OpKind {
    Alloc,
    Free,
    Realloc,
    Give,
    Take,
    Info,
    Idle,
}

/// The keyword that a word is.
pub fn keyword_at(word: &[u8]) -> Option<Keyword>
    ensures { result ≡ keyword_in word.now }
{
    if word == b"threads".as_slice() {
        Some(Keyword::Threads)
    } else if word == b"schedule".as_slice() {
        Some(Keyword::Schedule)
    } else if word == b"end".as_slice() {
        Some(Keyword::End)
    } else if word == b"type".as_slice() {
        Some(Keyword::Letter)
    } else if word == b"scheduler".as_slice() {
        Some(Keyword::Section)
    } else if word == b"stop".as_slice() {
        Some(Keyword::Stop)
    } else if word == b"generate".as_slice() {
        Some(Keyword::Generate)
    } else {
        None
    }
}

/// The kind of the operations that a word names.
pub fn kind_at(word: &[u8]) -> Option<OpKind>
    ensures { result ≡ kind_in word.now }
{
    if word == b"alloc".as_slice() {
        Some(OpKind::Alloc)
    } else if word == b"free".as_slice() {
        Some(OpKind::Free)
    } else if word == b"realloc".as_slice() {
        Some(OpKind::Realloc)
    } else if word == b"give".as_slice() {
        Some(OpKind::Give)
    } else if word == b"take".as_slice() {
        Some(OpKind::Take)
    } else if word == b"info".as_slice() {
        Some(OpKind::Info)
    } else if word == b"idle".as_slice() {
        Some(OpKind::Idle)
    } else {
        None
    }
}

/// The letter of an allocator that a word is.
pub fn letter_at(word: &[u8]) -> Option<Letter>
    ensures { result ≡ letter_in word.now }
{
    match word {
        b"B" => Some(Letter::B),
        b"D" => Some(Letter::D),
        b"E" => Some(Letter::E),
        b"H" => Some(Letter::H),
        b"L" => Some(Letter::L),
        b"R" => Some(Letter::R),
        b"S" => Some(Letter::S),
        b"T" => Some(Letter::T),
        _ => None,
    }
}

/// The word of a letter.
pub fn letter_word(letter: Letter) -> &'static [u8]
    ensures { result.now ≡ Rattle.ea_trace.specs.Lines.letter_word letter }
{
    match letter {
        Letter::B => b"B",
        Letter::D => b"D",
        Letter::E => b"E",
        Letter::H => b"H",
        Letter::L => b"L",
        Letter::R => b"R",
        Letter::S => b"S",
        Letter::T => b"T",
    }
}

/// Whether a word begins a comment.
pub fn is_comment(word: &[u8]) -> bool
    ensures { result ≡ Rattle.ea_trace.specs.Lines.is_comment word.now }
{
    matches!(word, [b'#', ..])
}
