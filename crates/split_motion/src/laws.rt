//! Proved facts about split motions and the routing rules. The function has the laws as its clauses, and does nothing.
ghost use Rattle.split_motion.specs.Laws.{SplitLaw, GivenLaw, NoneLaw, KeepsLaw};

/// What a window is sent for a motion of its device is the motion, split to what it holds.
pub fn sending()
    ensures split { SplitLaw }
    ensures given { GivenLaw }
    ensures none { NoneLaw }
    ensures keeps { KeepsLaw }
{}
