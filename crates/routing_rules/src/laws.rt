//! Proved facts about who holds what, and about what windows are sent. Each function has the laws as its clauses, and
//! does nothing.
ghost use Rattle.routing_rules.specs.Laws.{HoldsStep, HeldStep, HeldLaw, HeldAnyLaw, SinceStep, SinceLaw, PilferingStep, PilferingLaw, CoverLaw, CoverGrows, CoverBegins, ClearLaw, AbleLaw, BlockedLaw, SentLaw, QuietLaw, FitsStep};

/// Who holds a pointer: some step gave it, and no later one took it. The list of pairs, computed step by step, says
/// exactly this.
pub fn holding()
    ensures step { HoldsStep }
    ensures list_step { HeldStep }
    ensures list { HeldLaw }
    ensures any { HeldAnyLaw }
{}

/// Since when a window holds something of a device: since the last step at which it went from nothing to something.
/// The computed number is the index of that step.
pub fn beginning()
    ensures step { SinceStep }
    ensures number { SinceLaw }
{}

/// Who is pilfering a device: a window that pilfered it and has held something of it ever since.
pub fn pilfering()
    ensures step { PilferingStep }
    ensures test { PilferingLaw }
{}

/// What lay over a window when it was given pointers. It grows while the window holds something and begins anew with
/// the next pointer. Nothing lies over a window that has no window of another owner in front of it. Only a window that
/// can take input is given a pointer, and none that is blocked.
pub fn covering()
    ensures places { CoverLaw }
    ensures grows { CoverGrows }
    ensures begins { CoverBegins }
    ensures clear { ClearLaw }
    ensures able { AbleLaw }
    ensures blocked { BlockedLaw }
{}

/// What a window is sent at a step may follow what it was sent before, by the rule of streams, and the window then
/// knows exactly what it holds. So each motion lists what the window holds, and its index is right. A step that is no
/// motion of a device and takes nothing of it sends nothing for it.
pub fn sending()
    ensures fits { SentLaw }
    ensures quiet { QuietLaw }
    ensures next { FitsStep }
{}
