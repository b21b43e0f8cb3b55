//! Numbers and texts at the end of a list of bytes.
ghost use Rattle.std.specs.Prelude.{◌≡◌, ◌++◌, OnOk, OnErr, decimal};

use ea_model::{List, OutOfMemory};
use itoa::Buffer;

/// Appends a number in decimal digits, without leading zeros. An `Err` leaves the text as it was.
pub fn put_number(text: &mut List<u8>, n: u64) -> Result<(), OutOfMemory>
    ensures ok { OnOk result (text.new.items ≡ text.old.items ++ decimal n) }
    ensures err { OnErr result (text.new.items ≡ text.old.items) }
{
    let mut buffer = Buffer::new();
    put_text(text, buffer.format(n))
}

/// Appends a text's bytes. An `Err` leaves the text as it was.
pub fn put_text(text: &mut List<u8>, piece: &str) -> Result<(), OutOfMemory>
    ensures ok { OnOk result (text.new.items ≡ text.old.items ++ piece.now) }
    ensures err { OnErr result (text.new.items ≡ text.old.items) }
{
    text.extend_from_slice(piece.as_bytes())
}
