//! A proved fact about touch states and the routing rules. The function has the law as its clause, and does nothing.
ghost use Rattle.touch_state.specs.Laws.{StepLaw};

/// A touch state that changes as each step says agrees with the rules on who holds what, since when, and who is
/// pilfering.
pub fn following()
    ensures { StepLaw }
{}
