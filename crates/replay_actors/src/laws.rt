//! What is proved of races. Each function has laws as its clauses, and does nothing.
ghost use Rattle.replay_actors.specs.Laws.{CountsLaw, OrderLaw, PrintsLaw, RaceLaw};

/// What the lanes of a race leave behind, once it is settled, is a race: the opens, args and steps that were to be
/// made, each in its own order, and nothing is left to do.
pub fn racing()
    ensures { RaceLaw }
{}

/// Who follows the printed order of a race makes its very calls. The order asks for each args and each step of a lane
/// once.
pub fn ordering()
    ensures calls { OrderLaw }
    ensures counts { CountsLaw }
{}

/// A race of a plan prints an order, and the streams of the plan run in that order.
pub fn printing()
    ensures { PrintsLaw }
{}
