//! The case that the lines so far make.
use crate::lines::Line;
use ea_trials_runs::{Case, PLAIN};
use std::alloc::{AllocError, Global};

/// A case, and the input of the one before it.
#[derive(Drop)]
pub struct Draft {
    name: String,
    words: String,
    piece: usize,
    input: Vec<u8>,
    has_input: bool,
}

impl Draft {
    /// A case without a name, words and input.
    pub fn new(alloc: Global) -> Draft {
        Draft {
            name: String::new(alloc),
            words: String::new(alloc),
            piece: PLAIN.piece,
            input: Vec::new(alloc),
            has_input: false,
        }
    }

    /// Its name.
    pub fn name(&self) -> &str {
        &self.name
    }

    /// The case. The first read fails where it has no input.
    pub fn case(&self) -> Case<'_> {
        Case {
            words: &self.words,
            input: &self.input,
            piece: self.piece,
            failing_reads: if self.has_input { &[] } else { &[1] },
            ..PLAIN
        }
    }

    /// Takes what one more line says.
    pub fn take(&mut self, line: Line<'_>) -> Result<(), AllocError> {
        match line {
            Line::Nothing | Line::Run => {}
            Line::Case(name) => self.begin(name)?,
            Line::Words(words) => {
                self.words.clear();
                self.words.push_str(words)?;
            }
            Line::Piece(bytes) => self.piece = bytes,
            Line::Input => {
                self.input.clear();
                self.has_input = true;
            }
            Line::SameInput => self.has_input = true,
            Line::Text(text) => {
                self.input.extend_from_slice(text.as_bytes())?;
                self.input.push(b'\n')?;
            }
            Line::Part(text) => self.input.extend_from_slice(text.as_bytes())?,
            Line::Byte(byte) => self.input.push(byte)?,
        }
        Ok(())
    }

    // Begins another case, which has no words and no input so far.
    fn begin(&mut self, name: &str) -> Result<(), AllocError> {
        self.name.clear();
        self.name.push_str(name)?;
        self.words.clear();
        self.piece = PLAIN.piece;
        self.has_input = false;
        Ok(())
    }
}
