//! Proved facts about the lines of a step. Each function has a law as its clause, and does nothing.
ghost use Rattle.why_lines.specs.Laws.{DownLaw, FinishLaw, NoDownLaw, StillLaw, WordsLaw};

/// A finish writes that its channel responds again exactly if the channel is able after the finish and was not before
/// it.
pub fn finishing()
    ensures { FinishLaw }
{}

/// A step that cannot move the focus writes only the lines of its call, each with the clock after the step in front.
pub fn sending()
    ensures { StillLaw }
{}

/// The stream of a window gets a Down or a PointerDown exactly if the text gives it a pointer that goes down, or says
/// that one slips to it. So for pointers that go down, the text and the streams never disagree.
pub fn streaming()
    ensures motions { DownLaw }
    ensures others { NoDownLaw }
{}

/// The line of a pointer that goes down is the same, whether its sets of windows are masks or those of the rules.
pub fn words()
    ensures { WordsLaw }
{}
