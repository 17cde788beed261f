//! What is proved of judging. Each function has a law as its clause, and does nothing.
ghost use Rattle.judge_text.specs.Laws.{KeysLaw, ReasonLaw, SameBreakLaw};

/// A message that a stream file can spell has a reason exactly if the rule for streams has no next state.
pub fn reasons()
    ensures { ReasonLaw }
{}

/// The first broken message is the one for which `verify` refuses the file.
pub fn same_break()
    ensures { SameBreakLaw }
{}

/// The keys that are reported as down are those of which a repeat is due.
pub fn keys()
    ensures { KeysLaw }
{}
