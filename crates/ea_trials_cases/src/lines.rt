//! The lines of a text of cases.

/// What a line says.
#[derive(Debug, Clone, Copy)]
pub enum Line<'a> {
    /// Nothing: it is empty, or a comment.
    Nothing,
    /// The name of the case that begins.
    Case(&'a str),
    /// The words of its command line.
    Words(&'a str),
    /// The most bytes of each of its reads and writes.
    Piece(usize),
    /// Its own input begins.
    Input,
    /// Its input is that of the case before it.
    SameInput,
    /// A line of its input, without the line feed.
    Text(&'a str),
    /// Bytes of its input.
    Part(&'a str),
    /// A byte of its input.
    Byte(u8),
    /// It is whole.
    Run,
}

/// What a line says; None if it is no line of a case.
pub fn read(line: &str) -> Option<Line<'_>> {
    if line.is_empty() || line.starts_with('#') {
        return Some(Line::Nothing);
    }
    let (word, rest) = line.split_once(' ').unwrap_or((line, ""));
    match word {
        "case" => Some(Line::Case(rest)),
        "words" => Some(Line::Words(rest)),
        "piece" => Some(Line::Piece(rest.parse().ok()?)),
        "input" if rest.is_empty() => Some(Line::Input),
        "same" if rest == "input" => Some(Line::SameInput),
        ">" => Some(Line::Text(rest)),
        "+" => Some(Line::Part(rest)),
        "byte" => Some(Line::Byte(rest.parse().ok()?)),
        "run" if rest.is_empty() => Some(Line::Run),
        _ => None,
    }
}
