//! What is proved of both routers side by side. The function has the laws as its clauses, and does nothing.
ghost use Rattle.router_cases.specs.Joining.{StartLaw, SceneLaw, StepLaw, ListedLaw};

/// From equal scenes, whatever the step, the plain router and the split one send each window exactly the same, and
/// stand for equal scenes again.
pub fn joining()
    ensures start { StartLaw }
    ensures scene { SceneLaw }
    ensures step { StepLaw }
    ensures listed { ListedLaw }
{}
