//! Proved facts about what is kept. Each function has the laws as its clauses, and does nothing.
ghost use Rattle.dispatcher.specs.DispatchTables.Laws.{LawfulEffects, LawfulStep, LawfulLast, KeptStep, KeptReady, KeptUnopened, KeptQuiet, NotLiveLaw, KeptLess, KeptFacts, NumberedLaw, ReceiveLaw, FinishLaw, OldestLaw, LateLaw, CountsLaw, OpenedFew, AbleLaw, LiveMaskLaw, AbleMaskLaw, DueLaw, QuietDueLaw, NotLiveDueLaw, DuesLaw, FirstDueLaw, NamedLaw, AnrsLaw, AnrsKeptLaw, AnrsGoLaw, SilentCalls, DeliveryStart, DeliveryLaw, DeliveryDue, DeliveryNoOp};
ghost use Rattle.dispatcher.specs.DispatchTables.Holding.{HeldLess, MayGoLaw, PassLaw};

/// The effects of legal histories. A step with the required reply keeps them legal, and each of their steps has it.
pub fn lawful()
    ensures effects { LawfulEffects }
    ensures step { LawfulStep }
    ensures last { LawfulLast }
{}

/// What is kept of a channel, and how a step changes it. After the step it may be published at the clock.
pub fn channels()
    ensures facts { KeptFacts }
    ensures numbers { NumberedLaw }
    ensures step { KeptStep }
    ensures ready { KeptReady }
    ensures unopened { KeptUnopened }
{}

/// A step leaves the channels that it does not concern as they were, and many steps send nothing. Received messages
/// may be released, and so may all messages of a removed channel.
pub fn quiet_channels()
    ensures quiet { KeptQuiet }
    ensures not_live { NotLiveLaw }
    ensures less { KeptLess }
    ensures held_less { HeldLess }
    ensures may_go { MayGoLaw }
    ensures silent { SilentCalls }
{}

/// What owners are answered, and what can be read of a channel, from what is kept of it.
pub fn answers()
    ensures receive { ReceiveLaw }
    ensures pass { PassLaw }
    ensures finish { FinishLaw }
    ensures oldest { OldestLaw }
    ensures late { LateLaw }
    ensures counts { CountsLaw }
{}

/// Which channels are live and which can take input after a step, also as masks.
pub fn responding()
    ensures few { OpenedFew }
    ensures able { AbleLaw }
    ensures live_mask { LiveMaskLaw }
    ensures able_mask { AbleMaskLaw }
{}

/// When channels are due, from what is kept of them, and which one is first.
pub fn dues()
    ensures kept { DueLaw }
    ensures quiet { QuietDueLaw }
    ensures not_live { NotLiveDueLaw }
    ensures table { DuesLaw }
    ensures first { FirstDueLaw }
{}

/// Which channels a tick reports, and what is recorded.
pub fn anrs()
    ensures named { NamedLaw }
    ensures tick { AnrsLaw }
    ensures others { AnrsKeptLaw }
    ensures gone { AnrsGoLaw }
{}

/// What is kept of all channels stands for the empty history at first, and after each step for one step more.
pub fn delivery()
    ensures start { DeliveryStart }
    ensures step { DeliveryLaw }
    ensures rests { DeliveryNoOp }
    ensures due { DeliveryDue }
{}
