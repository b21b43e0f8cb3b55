//! Writing whole texts.
ghost use Rattle.std.specs.Prelude.{◌≡◌, ℕ, ◌≤◌, OnOk, OnErr, length};
ghost use Rattle.std.specs.List.{flat_map};
ghost use Rattle.std.specs.Io.KnownBytes.{Appends};
ghost use Rattle.ea_io.specs.Calls.{OnlyWrites, StopsWriting};
ghost use Rattle.ea_io.specs.Counts.{Rose, Grows};
ghost use Rattle.ea_io.specs.Fronts.{AppendsFront};

use crate::ends::{Failed, Sink};

/// Writes all these bytes; each write offers all that are left. An `Err` comes only where the
/// sink's count of faults rose; it took a front of the bytes then, and nothing more is written. It
/// takes no memory.
pub fn write_all<O: Sink>(sink: &mut O, bytes: &[u8]) -> Result<(), Failed>
    ensures whole { OnOk result (Appends (O.taken sink.old) (O.taken sink.new) bytes.now) }
    ensures counted { OnOk result (Grows (O.size sink.old) (O.size sink.new) (length bytes.now)) }
    ensures kept { OnOk result (O.faults sink.new ≡ O.faults sink.old) }
    ensures writes { OnOk result (OnlyWrites O.taken O.faults sink.old sink.new) }
    ensures front { AppendsFront (O.taken sink.old) (O.taken sink.new) bytes.now }
    ensures grows { O.faults sink.old ≤ O.faults sink.new }
    ensures cause { OnErr result (Rose (O.faults sink.old) (O.faults sink.new)) }
    ensures stops { OnErr result (StopsWriting O.taken O.faults sink.old sink.new) }
{
    let mut rest = bytes;
    while !rest.is_empty() {
        let count = sink.write(rest)?;
        rest = &rest[count..];
    }
    Ok(())
}

/// Writes these texts, one after the other. After a fault nothing more is written, and the sink
/// took a front of the joined texts. It takes no memory.
pub fn write_texts<O: Sink>(sink: &mut O, texts: &[&str]) -> Result<(), Failed>
    ensures whole { OnOk result (Appends (O.taken sink.old) (O.taken sink.new)
        (flat_map (λ t. t.now) texts.now)) }
    ensures kept { OnOk result (O.faults sink.new ≡ O.faults sink.old) }
    ensures writes { OnOk result (OnlyWrites O.taken O.faults sink.old sink.new) }
    ensures front { AppendsFront (O.taken sink.old) (O.taken sink.new)
        (flat_map (λ t. t.now) texts.now) }
    ensures grows { O.faults sink.old ≤ O.faults sink.new }
    ensures cause { OnErr result (Rose (O.faults sink.old) (O.faults sink.new)) }
    ensures stops { OnErr result (StopsWriting O.taken O.faults sink.old sink.new) }
{
    for text in texts {
        write_all(sink, text.as_bytes())?;
    }
    Ok(())
}
