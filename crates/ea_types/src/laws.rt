//! What holds of each run of several types, whatever its schedule. There is no code here: each law
//! is a clause of a function that does nothing, so that the check asks for its proof.
ghost use Rattle.ea_types.specs.Courses.{AllEnd};
ghost use Rattle.ea_types.specs.Turning.{AreOwnRuns, Types};

/// The run of each type is that of exactly its own turns. So what the machine's laws say of each
/// run of a trace holds of it.
pub fn own_runs()
    ensures { (t : Types) → AreOwnRuns t }
{}

/// After the turns that complete a schedule, every scheduler has ended in each type.
pub fn all_end()
    ensures { AllEnd }
{}
