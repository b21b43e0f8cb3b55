//! What holds of each run of recorded operations. There is no code here: the law is a clause of a
//! function that does nothing, so that the check asks for its proof.
ghost use Rattle.ea_recorded.specs.Order.{EachLineEnds};

/// The turns that each line is given at most suffice, in each run of a valid trace under a valid
/// configuration: after them the log of the line's scheduler has grown, or the scheduler has ended.
pub fn lines_end()
    ensures { EachLineEnds }
{}
