//! A proved fact about covers and the routing rules. The function has the laws as its clauses, and does nothing.
ghost use Rattle.dispatcher.specs.WindowCovers.Laws.{GiftLaw, StayLaw};

/// Covers that change with each gift, and stay with each step that gives nothing, say what lay over each window by the
/// marks of the steps.
pub fn following()
    ensures gift { GiftLaw }
    ensures stay { StayLaw }
{}
