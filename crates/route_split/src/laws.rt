//! Proved facts about tables that change step by step. Each function has laws as its clauses, and does nothing.
ghost use Rattle.route_split.specs.Following.{StartLaw, StepLaw, SceneLaw};
ghost use Rattle.route_split.specs.Marking.{OtherLaw};
ghost use Rattle.route_split.specs.Sending.{QuietLaw};

/// The tables follow the steps. A window holds a pointer if some step gave it and no later one took it. It holds
/// something of a device since the step at which it last went from nothing to something. It is pilfering a device if
/// it pilfered it and has held something of it ever since. So the tables stand for the scene after these steps.
pub fn following()
    ensures start { StartLaw }
    ensures step { StepLaw }
    ensures scene { SceneLaw }
{}

/// If a step concerns no pointer of a window, the window is sent nothing at it, unless it watches for touches outside
/// of it.
pub fn quiet()
    ensures { QuietLaw }
{}

/// A step other than a motion leaves the mark of its name.
pub fn steps()
    ensures { OtherLaw }
{}
