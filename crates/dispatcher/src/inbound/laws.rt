//! Proved facts about what is kept. Each function has laws as its clauses, and does nothing.
ghost use Rattle.dispatcher.specs.InboundArgs.Laws.{AcceptLaw, DownLaw};

/// What is kept stands for all args that were accepted, including those accepted next, and says what is down on each
/// device.
pub fn accepting()
    ensures accept { AcceptLaw }
    ensures down { DownLaw }
{}
