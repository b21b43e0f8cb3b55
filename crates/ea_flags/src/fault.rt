//! Why words are refused.
ghost use Rattle.std.specs.Prelude.{◌≡◌};
ghost use Rattle.ea_flags.specs.Refusals.{message_of, word_of};

/// Why words are refused. Words are numbered from 1.
#[derive(Debug, Clone, Copy, PartialEq, Eq)]
pub enum FlagFault {
    /// This word stands where a flag is due, and is none.
    Unknown { word: u32 },
    /// This word is a flag, and the last word.
    NoValue { word: u32 },
    /// This word is no value of the flag before it.
    BadValue { word: u32 },
    /// This word is a flag of the runtime that isn't simulated, or not with the value after it.
    Unsupported { word: u32 },
    /// The main carrier of an allocator has more pages than an instance's region.
    SpaceTooSmall,
}

impl FlagFault {
    /// The number of the refused word; None where no word alone is refused.
    pub fn word(&self) -> Option<u32>
        ensures { result ≡ word_of self.now }
    {
        match self {
            FlagFault::Unknown { word }
            | FlagFault::NoValue { word }
            | FlagFault::BadValue { word }
            | FlagFault::Unsupported { word } => Some(*word),
            FlagFault::SpaceTooSmall => None,
        }
    }

    /// What is wrong, without the number of the word.
    pub fn message(&self) -> &'static str
        ensures { result.now ≡ message_of self.now }
    {
        match self {
            FlagFault::Unknown { .. } => "unknown flag",
            FlagFault::NoValue { .. } => "value missing",
            FlagFault::BadValue { .. } => "bad value",
            FlagFault::Unsupported { .. } => "unsupported",
            FlagFault::SpaceTooSmall => "super carrier too small",
        }
    }
}
