//! What is proved of the lines and the events of a recording. The function has a law as its clause, and does nothing.
ghost use Rattle.recording_counts.specs.Laws.{EventsLaw};

/// Each line of a recording that is not refused is read, and as many lines give an event as there are events.
pub fn events_are_lines()
    ensures { EventsLaw }
{}
