//! Laws of the choice among gaps.
ghost use Rattle.ea_laws.specs.ChoiceLaws.{MissesNone, MissesNoneInspected, Orders, TakesFirst};

/// For each strategy, each need and all contents: the choice is the first of what the strategy
/// inspects and that is large enough, and there is none exactly where there is no such gap.
pub fn choices()
    ensures orders { Orders }
    ensures taken { TakesFirst }
    ensures none { MissesNoneInspected }
    ensures all { MissesNone }
{}
