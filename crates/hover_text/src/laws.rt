//! What is proved of the calls of a session and a mouse. Each function has laws as its clauses, and does nothing.
ghost use Rattle.hover_text.specs.Laws.{BothKindsLaw, CallOrderLaw};

/// The calls rise in time, and at one time those of steps come before motions. This holds of every recording: a packet
/// whose time is before that of an earlier packet counts at the time of that one.
pub fn calls_in_order()
    ensures { CallOrderLaw }
{}

/// The calls are those of the steps and the motions of the packets, each kind in its own order: none is lost, and none
/// is added.
pub fn calls_of_both()
    ensures { BothKindsLaw }
{}
