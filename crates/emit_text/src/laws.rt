//! What is proved of recordings that are written. Each function has a law as its clause, and does nothing.
ghost use Rattle.emit_text.specs.Laws.{OneAnswerLaw, RecordingLaw};

/// There is exactly one answer for the bytes of a file, a channel and a device.
pub fn one_answer()
    ensures { OneAnswerLaw }
{}

/// A reader of recordings gets the events of the packets from the resulting text, and cooking these gives back what
/// was down after each motion.
pub fn recording()
    ensures { RecordingLaw }
{}
