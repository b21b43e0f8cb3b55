//! Headers and their words.
ghost use Rattle.std.specs.Prelude.{◌≡◌, ◌≤◌};
ghost use Rattle.ea_tags.specs.Words.{bit as bit_of, code};
ghost use Rattle.ea_tags.specs.declared.header.TheConstants.{MAX_SIZE};

/// The most units that a word of 32 bits can say, beside the three marks of a header.
pub const MAX_SIZE: u32 = 536_870_911;

/// What the first unit of a block or of a gap says.
#[derive(Debug, Clone, Copy, PartialEq, Eq)]
pub struct Header {
    /// Its units.
    pub size: u32,
    /// Whether it is a gap.
    pub this_free: bool,
    /// Whether a gap ends directly before it.
    pub prev_free: bool,
    /// Whether it ends where the carrier ends.
    pub last: bool,
}

fn bit(b: bool) -> u32
    ensures { result ≡ bit_of b }
{
    if b { 1 } else { 0 }
}

/// The word of a header: eight times its units, 1 more for a gap, 2 more where a gap ends directly
/// before it, and 4 more for the last one.
pub fn encode(header: Header) -> u32
    requires { header.size ≤ MAX_SIZE }
    ensures { result ≡ code header }
{
    header.size * 8 + bit(header.this_free) + 2 * bit(header.prev_free) + 4 * bit(header.last)
}

/// The header of a word. Each number of 32 bits is the word of just one header.
pub fn decode(word: u32) -> Header
    ensures word { code result ≡ word }
    ensures small { result.size ≤ MAX_SIZE }
{
    Header {
        size: word / 8,
        this_free: word % 2 == 1,
        prev_free: word / 2 % 2 == 1,
        last: word / 4 % 2 == 1,
    }
}
