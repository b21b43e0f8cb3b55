//! The top call.
ghost use Rattle.std.specs.Prelude.{◌≡◌, ◌≢◌, ℕ, ◌+◌, ◌^◌, ◌<◌, ◌≤◌, ◌⊎◌, ◌↔◌, IfSome, length};
ghost use Rattle.std.specs.Io.KnownBytes.{IsAtEnd};
ghost use Rattle.ea_io.specs.Calls.{StopsReading, StopsWriting};
ghost use Rattle.ea_io.specs.Counts.{Calm};
ghost use Rattle.ea_io.specs.Fronts.{ConsumesAtMost};
ghost use Rattle.ea_model.specs.declared.units.TheConstants.{MAX_INPUT};
ghost use Rattle.ea_sound.specs.MachineLaws.{Protocol};
ghost use Rattle.ea_frame.specs.Answered.{Answered, end_of};
ghost use Rattle.ea_frame.specs.Faults.{Complains, status_of};
ghost use Rattle.ea_frame.specs.Inputs.{GoodWords};
ghost use Rattle.ea_frame.specs.declared.faults.Fault.{Fault};
ghost use Rattle.ea_top.specs.Answers.{GoodInput, IsWhy, WroteFront, WroteText};
ghost use Rattle.ea_top.specs.EachTrace.{ForEachTrace};
ghost use Rattle.ea_top.specs.Language.{traces};

use crate::part::Traces;
use ea_frame::run_part;
use ea_io::{Sink, Source};
use std::alloc::Global;
use std::thread::Threads;

/// Reads the words, then the whole input, runs its operations, and writes the text to `out` in one
/// piece. Where there is no text, one line on `err` says why.
///
/// The status is 0 where the text was written; 1 where the words are refused; 2 where the input has
/// more than 2^24 bytes or isn't a trace; 3 where the source failed; 4 where `out` failed; 5 where
/// there was no memory.
pub fn run<R: Threads + Sync, S: Source, O: Sink, E: Sink>(
    rt: &R,
    alloc: Global,
    words: &[String],
    source: &mut S,
    out: &mut O,
    err: &mut E,
) -> u8
    requires { length words.now < 2 ^ 32 }
    ensures statuses { result ≤ 5 }

    // 0: the whole text of an input in the language, which was read to its end. It is the text of
    // a list of steps, each scheduler's up to its stop if it has one, after which every scheduler
    // has ended or is stopped. Where the input has a schedule, these are exactly the completed
    // schedule: the turns that it asks for, and then those of each scheduler until it has ended or
    // is stopped; a turn of one that has ended or is stopped changes nothing. Where the input asks
    // for generated operations, they are the ones that are defined, run by an empty schedule, and
    // the text is the counts of them. This trace, given or generated, is valid for the schedulers
    // of the words, so at every moment of every list of steps of this run all holds that stands at
    // `protocol` below. Where the source doesn't tell its bytes, as a terminal, this holds of some
    // input.
    ensures done { result ≡ 0
        → WroteText words.now (S.left source.old) (O.taken out.old) (O.taken out.new) }
    ensures end { result ≡ 0 → IsAtEnd (S.left source.new) }

    // And at every moment of every list of steps, of this run and of that of each other valid trace
    // under such words, stops or not: no two blocks share a unit, and carriers lie apart; each
    // carrier is in one place, and each name; one that its owner doesn't employ, and no other,
    // stands in a list of its owner, once; blocks, gaps and headers are all units. Each operation
    // has one entry, of its own kind: a block is placed where the strategy takes a gap first, or in
    // a carrier of its own if it is above the threshold; an allocation fails only where nothing
    // that is looked at fits and no carrier can be created, and then it does; what isn't held is
    // skipped. No block is released twice, and none changes its place. Of any list of turns each
    // scheduler takes those up to its stop, and in a completed schedule there are no others; after
    // that each has ended or is stopped.
    ensures protocol { result ≡ 0 → ForEachTrace Protocol words.now }

    // 1: exactly for words that are refused, and nothing was read.
    ensures bad_words { (result ≡ 1) ↔ (GoodWords words.now → ⊥) }
    ensures good_words { result ≢ 1 → GoodWords words.now }
    ensures unread { result ≡ 1 → source.new ≡ source.old }

    // 2: only for an input that isn't good; and such an input gives 2, unless its source fails.
    ensures bad_input { result ≡ 2
        → IfSome (S.left source.old) (λ input. GoodInput words.now input → ⊥) }
    ensures refuses { GoodWords words.now → Calm (S.faults source.old) (S.faults source.new)
        → IfSome (S.left source.old) (λ input. (GoodInput words.now input → ⊥)
        → (result ≡ 2) ⊎ (result ≡ 5)) }

    // At most one byte more than the limit is read.
    ensures taken { ConsumesAtMost (S.left source.old) (S.left source.new) (MAX_INPUT + 1) }

    // 3 and 4: only where that end failed, after which nothing more was read or written, and
    // wherever it did; at 4 a front of the text was written.
    ensures read_failed { result ≡ 3 → StopsReading S.left S.faults source.old source.new }
    ensures read_told { S.faults source.old < S.faults source.new → result ≡ 3 }
    ensures write_failed { result ≡ 4 → StopsWriting O.taken O.faults out.old out.new }
    ensures write_told { O.faults out.old < O.faults out.new → result ≡ 4 }
    ensures front { result ≡ 4
        → WroteFront words.now (S.left source.old) (O.taken out.old) (O.taken out.new) }
    ensures untouched { result ≢ 0 → result ≢ 4 → out.new ≡ out.old }

    // Good words, a good input and no fault give 0, or 5.
    ensures complete { GoodWords words.now → Calm (S.faults source.old) (S.faults source.new)
        → Calm (O.faults out.old) (O.faults out.new)
        → IfSome (S.left source.old) (λ input. GoodInput words.now input
        → (result ≡ 0) ⊎ (result ≡ 5)) }

    // err: nothing at 0, else the line of a fault that has this status and is why there is no text.
    // This says also how far the source was read, and speaks where the source does not tell its
    // bytes, too.
    ensures quiet { result ≡ 0 → err.new ≡ err.old }
    ensures reason { result ≢ 0 → (fault : Fault) × (result ≡ status_of fault)
        × Complains (E.taken err.old) (E.taken err.new)
        (Calm (E.faults err.old) (E.faults err.new)) fault
        × IsWhy words.now (S.left source.old) (S.left source.new)
        (StopsReading S.left S.faults source.old source.new)
        (StopsWriting O.taken O.faults out.old out.new) fault }
    ensures stops { (E.faults err.new ≡ E.faults err.old)
        ⊎ StopsWriting E.taken E.faults err.old err.new }

    // All of this in the words that every command has.
    ensures answered { Answered traces words.now (end_of S.left S.faults source.old source.new)
        (end_of O.taken O.faults out.old out.new) (end_of E.taken E.faults err.old err.new) result }
{
    let part = Traces { rt };
    run_part(&part, alloc, words, source, out, err)
}
