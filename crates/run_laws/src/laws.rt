//! Proved facts about the runs of a plan. Each function has the laws as its clauses, and does nothing.
ghost use Rattle.dispatch_history.specs.Laws.{OrderedUnique};
ghost use Rattle.run_laws.specs.Laws.{GivenTakes, HandedKeep, OneOutcome, OrderedTakes, StepsHandNone};

/// If the args of a plan keep the rule of each device, none of them is refused in its runs.
pub fn taking()
    ensures ordered { OrderedTakes }
    ensures given { GivenTakes }
{}

/// No args of a recording are refused: what readers give keeps the rule of devices in the order in which it is handed
/// in, and no step of a script hands in args.
pub fn fitting()
    ensures args { HandedKeep }
    ensures steps { StepsHandNone }
{}

/// A plan has one result. It has at most one ordered run, and if that is within the limits, no part of it is too long.
pub fn answering()
    ensures run { OrderedUnique }
    ensures outcome { OneOutcome }
{}
