//! Proved facts about the causes of a run. Each function has the laws as its clauses, and does nothing.
ghost use Rattle.why_text.specs.Laws.{BlockersLaw, FocusLaw, GivenLaw, OthersLaw, OutsideLaw, PartsLaw, RowLaw, SilentLaw};

/// The printed row of a choice says what holds before the step.
pub fn choosing()
    ensures { RowLaw }
{}

/// The targets of a pointer are divided into the windows that are given it, the mute ones and the blocked ones.
pub fn parting()
    ensures { PartsLaw }
{}

/// A window is blocked exactly if some window blocks it.
pub fn blocking()
    ensures { BlockersLaw }
{}

/// The windows whose streams contain a pointer's down are those that are given it, or to which it slips.
pub fn giving()
    ensures motions { GivenLaw }
    ensures others { OthersLaw }
{}

/// The windows that are sent a touch outside are those that watch for it and are not given the pointer.
pub fn watching()
    ensures { OutsideLaw }
{}

/// A notify, a receive, and an idle pump have no line.
pub fn resting()
    ensures { SilentLaw }
{}

/// The focus changes only when a channel is opened or removed, windows are shown, or a focus is requested.
pub fn focusing()
    ensures { FocusLaw }
{}
