//! A proved fact about what a run prints. The function has the law as its clause, and does nothing.
ghost use Rattle.schedule.specs.Laws.{StreamsLaw};

/// Each stream of a run is well-formed, and leaves the owner of a live channel knowing what its window holds.
pub fn streams()
    ensures { StreamsLaw }
{}
