//! What the memory keeps, and that the turns of an input suffice.
ghost use Rattle.ea_contents.specs.Agreeing.{AlwaysKeepsAgreement};
ghost use Rattle.ea_contents.specs.Model.{AllEnd};

/// At every moment of each run of a valid trace under a valid configuration: a step of a scheduler,
/// after which the words that a new block takes over are copied and the others are zeroed, keeps the
/// words of each block the list of its name; and so does a write of a word of a block.
pub fn agreement()
    ensures { AlwaysKeepsAgreement }
{}

/// In each run of a valid trace under a valid configuration, whatever its writes and reads and its
/// schedule: after the turns that complete the schedule, every scheduler has ended. So the number of
/// turns that each scheduler is given at most suffices.
pub fn all_end()
    ensures { AllEnd }
{}
