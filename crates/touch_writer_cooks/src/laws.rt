//! Proved facts about the packets of a writer. Each function has a law as its clause, and does nothing.
ghost use Rattle.touch_writer_cooks.specs.Cooking.{CookingLaw};
ghost use Rattle.touch_writer_cooks.specs.Reading.{ReadingLaw};

/// From what a writer wrote so far, cooking assigns the ids and positions that were wanted.
pub fn cooking()
    ensures pointers { CookingLaw }
{}

/// The lines of events are read as these events.
pub fn reading()
    ensures events { ReadingLaw }
{}
