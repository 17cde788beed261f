//! Proved facts about consecutive turns. Each function has laws as its clauses, and does nothing.
ghost use Rattle.route_plain.specs.Laws.{StartLaw, TurnLaw, SceneLaw, AbleLaw, NamedLaw, DownLaw};

/// What the router keeps follows the turns that it took. A window holds a pointer if some turn gave it and no later
/// one took it. It holds something of a device since the turn at which it last went from nothing to something. It is
/// pilfering a device if it pilfered it and has held something of it ever since.
pub fn following()
    ensures start { StartLaw }
    ensures turn { TurnLaw }
    ensures scene { SceneLaw }
{}

/// What holds for all holders before a turn and again after it: each can take input and is not one from which the
/// turn took everything; each is in the snapshot; and each holds only pointers that are down on their device.
pub fn holders()
    ensures able { AbleLaw }
    ensures named { NamedLaw }
    ensures down { DownLaw }
{}
