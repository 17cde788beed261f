//! Proved facts about what is kept. Each function has the laws as its clauses, and does nothing.
ghost use Rattle.dispatcher.specs.KeyTables.Laws.{FocusRead, FocusRequested, FocusShown, FocusLeft, FocusMasks, FocusAtFirst, FocusSent, KeysOfTarget, KeysRise, KeysAtFirst, BodiesTracked, KeysStep, SaidParts, KeysQuiet, TargetSent, RepeatRead, RepeatStep, RepeatLeft};

/// What is kept of the focus says which window has it and where keys go, changes as each call says, and determines
/// what each channel is sent about it.
pub fn focus()
    ensures read { FocusRead }
    ensures requested { FocusRequested }
    ensures shown { FocusShown }
    ensures left { FocusLeft }
    ensures masks { FocusMasks }
    ensures first { FocusAtFirst }
    ensures outgoing { FocusSent }
{}

/// Only the key target holds keys, in rising order.
pub fn keys()
    ensures target { KeysOfTarget }
    ensures rising { KeysRise }
    ensures first { KeysAtFirst }
    ensures bodies { BodiesTracked }
    ensures step { KeysStep }
{}

/// What a step sends for keys: only the key target is sent anything, and what it is sent follows from what is kept.
pub fn sending()
    ensures parts { SaidParts }
    ensures quiet { KeysQuiet }
    ensures target { TargetSent }
{}

/// What is kept of the last key message says when a repeat is due, and changes by what the key target is sent.
pub fn repeating()
    ensures read { RepeatRead }
    ensures step { RepeatStep }
    ensures left { RepeatLeft }
{}
