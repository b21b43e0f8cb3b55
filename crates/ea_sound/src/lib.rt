//! The protocol of atomic steps is sound: what the machine's laws say holds of each run, whatever
//! steps its schedulers take. There is no code here; the law is a clause of a function that does
//! nothing, so that the check asks for its proof.
//!
//! `specs/` say what holds:
//!
//! - `Sound` is when a state is sound. What it counts and where things stand and lie is said in
//!   `Contents`, `Names`, `NodePlaces`, `Places`, `NamePlaces`, `Listed`, `Ranges` and `Units`.
//! - `Entries` is what each entry of a log tells of the turns before it, with `Turns`, `Needs`,
//!   `Searches`, `Fetches`, `Exhausted`, `Chosen`, `HandedOver` and `Released`.
//! - `Guarded` says that no scheduler does a row that it may not do, `Grounded` what its last step
//!   was where a guard speaks of that, `Heard` which answers never come, `FewCreated` how many
//!   carriers are created.
//! - `MachineLaws` puts them together: `Protocol` is what holds of each run.
//!
//! The proof goes by a rule that each step keeps. `Rule` has what is kept whatever a scheduler is
//! in the middle of: where contents lie and carriers are, whose names stand where, and which nodes
//! are on their way; each as a balance of sums. `Present` has what each scheduler is in the middle
//! of, and `Leaves` what a row leaves to the local work that follows it; `Orderly`, `Blocks`,
//! `Moments` and `Here` are words of these. Beside it stands what `Listed` says of the lists of own
//! carriers. `Steady`, `Standing` and `OwnWork` are what the code
//! and threads need beside the rule; `Releasing` and `Walking` say what a release and a walk come
//! to where carriers don't migrate.
//!
//! `proofs/Lib.antt` lists the proofs in the order in which they are read, part by part: sums, one
//! instance, one moment, rows, the work between rows, a step, the rule, and what follows from it.
#![tactic(auto)]

ghost use Rattle.ea_model.specs.declared.settings.Config.{Config};
ghost use Rattle.ea_model.specs.declared.trace.Trace.{Trace};
ghost use Rattle.ea_model.specs.Settings.{IsValidConfig};
ghost use Rattle.ea_model.specs.Trace.{IsValidTrace};
ghost use Rattle.ea_sound.specs.MachineLaws.{Always, Protocol};
ghost use Rattle.ea_sound.specs.OwnWork.{PassesFew};

/// In each run of a valid trace under a valid configuration, after any list of steps: every moment
/// is sound, what is printed of it adds up, no scheduler does a row that it may not do, each entry
/// of a log tells how it came about, no block is released twice, and after a completed schedule
/// each scheduler has ended or is stopped; and a walk passes no more nodes than the run has names
/// and carrier numbers.
pub fn soundness()
    ensures protocol { Always Protocol }
    ensures walks { (c : Config) (t : Trace) → IsValidConfig c → IsValidTrace c.schedulers t
        → PassesFew c t }
{}
