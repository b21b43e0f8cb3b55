//! The call that every command makes, over its part.
ghost use Rattle.std.specs.Prelude.{◌≡◌, ◌≢◌, ℕ, ◌+◌, ◌^◌, ◌<◌, ◌≤◌, IfOk, IfErr, IfSome, OnOk};
ghost use Rattle.std.specs.Prelude.{IsErrOf, length};
ghost use Rattle.std.specs.Io.KnownBytes.{IsAtEnd};
ghost use Rattle.ea_io.specs.Calls.{StopsReading, StopsWriting};
ghost use Rattle.ea_io.specs.Fronts.{ConsumesAtMost};
ghost use Rattle.ea_model.specs.declared.units.TheConstants.{MAX_INPUT};
ghost use Rattle.ea_model.specs.Settings.{IsValidConfig};
ghost use Rattle.ea_frame.specs.Answered.{Answered, end_of};
ghost use Rattle.ea_frame.specs.Inputs.{GoodWords, Under, WroteFront, WroteText};
ghost use Rattle.ea_frame.specs.Language.{HasText};
ghost use Rattle.ea_frame.specs.Faults.{status_of};
ghost use Rattle.ea_frame.specs.Whys.{IsReadFault, IsTextFault, IsWhy};
ghost use Rattle.ea_frame.specs.declared.faults.Fault.{Fault};

use crate::faults::{Fault, complain};
use ea_flags::read_flags;
use ea_io::{ReadAllFault, Sink, Source, read_all, write_all};
use ea_model::{Config, List, MAX_INPUT};
use std::alloc::Global;

/// The part of a command: it makes a text of an input in the language of the command. All else of a
/// call is the same for every command: `run_part`.
pub trait Part {
    ghost use Rattle.ea_frame.specs.Language.{Language};

    // the language of the command
    ghost language: { Language };

    // what has to hold of the types that it is made of: of a part with threads, that they may share
    // what starts them
    ghost needs: { Type 0 };

    /// A text of the input under the configuration, or why there is none: the input is refused, or
    /// isn't one that the command runs, or there is no memory.
    fn text_of(&self, alloc: Global, config: Config, input: &[u8]) -> Result<List<u8>, Fault>
        requires needs { needs }
        requires config { IsValidConfig config }
        requires short { length input.now ≤ MAX_INPUT }
        ensures text { IfOk result (λ text. HasText language config input.now text.items) }
        ensures promised { OnOk result (language.Promises config) }
        ensures why { IfErr result (IsTextFault language config input.now) };
}

/// Calls the command with these words: reads them, then the whole source, and writes the text that
/// the part makes of it to `out` in one piece. Where there is no text, one line on `err` says why.
///
/// The status is 0 where the text was written; 1 where the words are refused; 2 where the input has
/// more than 2^24 bytes or isn't in the language; 3 where the source failed; 4 where `out` failed;
/// 5 where there was no memory; 7 where the input is in the language and the command doesn't run
/// it.
pub fn run_part<P: Part, S: Source, O: Sink, E: Sink>(
    part: &P,
    alloc: Global,
    words: &[String],
    source: &mut S,
    out: &mut O,
    err: &mut E,
) -> u8
    requires needs { P.needs }
    requires words { length words.now < 2 ^ 32 }
    ensures { Answered P.language words.now (end_of S.left S.faults source.old source.new)
        (end_of O.taken O.faults out.old out.new) (end_of E.taken E.faults err.old err.new) result }
{
    match attempt(part, alloc, words, source, out) {
        Ok(()) => 0,
        Err(fault) => {
            complain(err, fault);
            fault.status()
        }
    }
}

/// Writes a text of the input to `out`, or says why there is none.
fn attempt<P: Part, S: Source, O: Sink>(
    part: &P,
    alloc: Global,
    words: &[String],
    source: &mut S,
    out: &mut O,
) -> Result<(), Fault>
    requires needs { P.needs }
    requires words { length words.now < 2 ^ 32 }
    ensures good { OnOk result (GoodWords words.now) }
    ensures promised { OnOk result (Under words.now P.language.Promises) }
    ensures done { OnOk result (WroteText P.language words.now (S.left source.old)
        (O.taken out.old) (O.taken out.new)) }
    ensures end { OnOk result (IsAtEnd (S.left source.new)) }
    ensures why { IfErr result
        (IsWhy P.language words.now (S.left source.old) (S.left source.new)
        (StopsReading S.left S.faults source.old source.new)
        (StopsWriting O.taken O.faults out.old out.new)) }
    ensures taken { ConsumesAtMost (S.left source.old) (S.left source.new) (MAX_INPUT + 1) }
    ensures unread { IfErr result (λ f. status_of f ≡ 1 → source.new ≡ source.old) }
    ensures untouched { IfErr result (λ f. f ≢ Fault.WriteFailed → out.new ≡ out.old) }
    ensures read_told { S.faults source.old < S.faults source.new
        → IsErrOf result Fault.ReadFailed }
    ensures write_told { O.faults out.old < O.faults out.new → IsErrOf result Fault.WriteFailed }
    ensures write_stops { IsErrOf result Fault.WriteFailed
        → StopsWriting O.taken O.faults out.old out.new }
    ensures front { IsErrOf result Fault.WriteFailed
        → WroteFront P.language words.now (S.left source.old) (O.taken out.old) (O.taken out.new) }
{
    let config = read_flags(words)?;
    let bytes = input_of(alloc, source)?;
    let text = part.text_of(alloc, config, bytes.as_slice())?;
    match write_all(out, text.as_slice()) {
        Ok(()) => Ok(()),
        Err(_) => Err(Fault::WriteFailed),
    }
}

/// The bytes of the source, to its end.
fn input_of<S: Source>(alloc: Global, source: &mut S) -> Result<List<u8>, Fault>
    ensures all { IfOk result (λ bytes. IfSome (S.left source.old) (λ input. bytes.items ≡ input)) }
    ensures short { IfOk result (λ bytes. length bytes.items ≤ MAX_INPUT) }
    ensures end { OnOk result (IsAtEnd (S.left source.new)) }
    ensures taken { ConsumesAtMost (S.left source.old) (S.left source.new) (MAX_INPUT + 1) }
    ensures told { S.faults source.old < S.faults source.new → IsErrOf result Fault.ReadFailed }
    ensures why { IfErr result
        (IsReadFault (S.left source.old) (S.left source.new)
        (StopsReading S.left S.faults source.old source.new)) }
{
    match read_all(alloc, source, MAX_INPUT) {
        Ok(bytes) => Ok(bytes),
        Err(ReadAllFault::ReadFault) => Err(Fault::ReadFailed),
        Err(ReadAllFault::TooLong) => Err(Fault::TooLong),
        Err(ReadAllFault::OutOfMemory) => Err(Fault::OutOfMemory),
    }
}
