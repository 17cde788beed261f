//! Proved facts about channels and their clients. Each function has the laws as its clauses, and does nothing.
ghost use Rattle.live_input.specs.LimitLaws.{BoundLaw, CoverLaw, DrainedLaw, EasedDisplayLaw, EasedKeysLaw, GrowthLaw, HiddenLaw, LeftLaw, QuietLaw};
ghost use Rattle.live_input.specs.LimitedCalls.{GoneLaw};
ghost use Rattle.live_input.specs.ClosingLaws.{ClosedKeysLaw, PartKeysLaw};
ghost use Rattle.live_input.specs.Served.{AsksServedLaw, ServedLaw, ShowsServedLaw, StepsServedLaw};
ghost use Rattle.live_input.specs.ShownLaws.{KnowsFirstLaw, KnowsEasedLaw, KnowsShownLaw, KnowsStaysLaw, KnowsClosedLaw};
ghost use Rattle.live_input.specs.Laws.{SilenceLaw, UnsentLaw, AloneLaw, OwnLaw, OwnNumbersLaw, NextLaw, VacantLaw, ClosedLaw, KeptLaw, AnrsLaw, LaterLaw, DoneLaw, FedFirstLaw, FedLaw, FedStaysLaw};

/// A channel whose window is not shown is sent nothing more.
pub fn silence()
    ensures { SilenceLaw }
{}

/// Everything that was sent to a channel whose window is not shown has ended. So what it is sent later is a stream by
/// itself, from the empty state.
pub fn endings()
    ensures unsent { UnsentLaw }
    ensures alone { AloneLaw }
{}

/// What each client is sent from its opening on is a stream by itself, numbered from 1. The client receives it in
/// order, and knows from it what its window holds. A channel without an open client is sent nothing.
pub fn clients()
    ensures own { OwnLaw }
    ensures numbers { OwnNumbersLaw }
    ensures next { NextLaw }
    ensures closed { ClosedLaw }
{}

/// What is kept: the messages of a channel that were not received yet, nothing of a channel without an open client, and
/// no ANR.
pub fn memory()
    ensures messages { KeptLaw }
    ensures anrs { AnrsLaw }
    ensures vacant { VacantLaw }
{}

/// What holds when nothing is left to do: after `advance` nothing is due at or before its time, and after `close` all
/// messages of the channel are received and finished.
pub fn settling()
    ensures later { LaterLaw }
    ensures done { DoneLaw }
{}

/// Closing a client leaves keys where they go, and with all other clients that hold them, even if memory runs out.
pub fn closing()
    ensures done { ClosedKeysLaw }
    ensures part { PartKeysLaw }
{}

/// A device and the history agree on what is down on the device, as long as its args come from its events alone. So
/// these args always fit.
pub fn readers()
    ensures first { FedFirstLaw }
    ensures fed { FedLaw }
    ensures stays { FedStaysLaw }
{}

/// A client that is not choked has at most as many unreceived messages as it may have, and each call of the dispatcher
/// adds a bounded number. One that is choked has no window among those that are shown, so no call sends it anything
/// more; once it is released it has received and finished everything. The walls are where the windows of choked clients
/// were, and all others stay. Keys go where they went, and the client that has them holds its own.
pub fn choking()
    ensures bound { BoundLaw }
    ensures growth { GrowthLaw }
    ensures drained { DrainedLaw }
    ensures hidden { HiddenLaw }
    ensures quiet { QuietLaw }
    ensures left { LeftLaw }
    ensures cover { CoverLaw }
    ensures display { EasedDisplayLaw }
    ensures keys { EasedKeysLaw }
{}

/// Behind a client that is closed and for which no wall stood, the windows are shown as they are asked for.
pub fn gone()
    ensures { GoneLaw }
{}

/// Whatever was called since the service was made, a client never has many more unreceived messages than the limit.
pub fn served()
    ensures most { ServedLaw }
    ensures steps { StepsServedLaw }
    ensures shows { ShowsServedLaw }
    ensures asks { AsksServedLaw }
{}

/// Where the windows are known to be shown, they are, with the walls.
pub fn shown()
    ensures first { KnowsFirstLaw }
    ensures eased { KnowsEasedLaw }
    ensures shows { KnowsShownLaw }
    ensures stays { KnowsStaysLaw }
    ensures closed { KnowsClosedLaw }
{}
