//! Lines of words.
ghost use Rattle.std.specs.Prelude.{◌≡◌, ◌++◌, ◌∷◌, map, OnOk};
ghost use Rattle.std.specs.List.{flat_map};
ghost use Rattle.ea_report.specs.Text.{line};
ghost use Rattle.ea_report.specs.Printed.{word_text};

use ea_io::{put_number, put_text};
use ea_model::{List, OutOfMemory};

/// A word of a line.
#[derive(Debug, Clone, Copy)]
pub enum Word<'a> {
    Text(&'a str),
    Number(u32),
    /// A number that may pass 32 bits.
    Sum(u64),
}

use Word::{Number, Sum, Text};

/// Adds a word after a space.
fn put_word(text: &mut List<u8>, word: Word) -> Result<(), OutOfMemory>
    ensures { OnOk result (text.new.items ≡ text.old.items ++ 32 ∷ word_text word.entry) }
{
    put_text(text, " ")?;
    match word {
        Text(piece) => put_text(text, piece),
        Number(n) => put_number(text, u64::from(n)),
        Sum(n) => put_number(text, n),
    }
}

/// Adds the words, each after a space.
pub fn put_words(text: &mut List<u8>, words: &[Word]) -> Result<(), OutOfMemory>
    ensures { OnOk result
        (text.new.items ≡ text.old.items ++ flat_map (λ w. 32 ∷ w) (map word_text words.now)) }
{
    for word in words {
        put_word(text, *word)?;
    }
    Ok(())
}

/// Adds a line.
pub fn put_line(text: &mut List<u8>, first: &str, words: &[Word]) -> Result<(), OutOfMemory>
    ensures { OnOk result
        (text.new.items ≡ text.old.items ++ line first.now (map word_text words.now)) }
{
    put_text(text, first)?;
    put_words(text, words)?;
    put_text(text, "\n")
}
