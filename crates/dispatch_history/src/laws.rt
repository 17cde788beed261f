//! Proved facts about histories. Each function has the laws as its clauses, and does nothing.
ghost use Rattle.dispatch_history.specs.Laws.{LegalLast, LegalMore, LegalUnique, ReplayLaw, LegalReplay, EffectsLaw, UnresponsiveStep, AbleStep, OrderedSound, OrderedComplete, OrderedUnique, QueueLaw, DeviceLaw, LiveLaw, StreamStep, SilentLaw, OnePointer, HolderLaw, FitLaw, MotionsLaw, MotionsComeLaw, FocusLaw, FocusComesLaw, KeysLaw, KeysComeLaw, HeldKeyLaw, LastKeyLaw, TermsLaw, WholeLaw, WellFormedLaw, RemovedLaw, RemovedStateLaw, GoneLaw, NumbersLaw, TurnsLaw, TurnsComeLaw, KeyPlacesLaw, KeysDownLaw};

/// A list of calls has exactly one legal history, its replay, and each step of it has the reply that the history
/// before it requires.
pub fn legality()
    ensures last { LegalLast }
    ensures more { LegalMore }
    ensures unique { LegalUnique }
    ensures replay { ReplayLaw }
    ensures again { LegalReplay }
    ensures past { EffectsLaw }
{}

/// Args wait in the order in which they were accepted. They keep the rule of their device, and so do those that were
/// dispatched.
pub fn queueing()
    ensures queue { QueueLaw }
    ensures devices { DeviceLaw }
{}

/// A step appends to the stream of each channel what it sends to it, and nothing to that of a channel that is not
/// live after it.
pub fn streaming()
    ensures live { LiveLaw }
    ensures step { StreamStep }
    ensures silent { SilentLaw }
{}

/// At any time, an id that is down on a device is one pointer.
pub fn pointing()
    ensures { OnePointer }
{}

/// Windows that hold something are able, and shown on the display of its device. At any time, what they hold is down,
/// and the last motion lists it.
pub fn holding()
    ensures holders { HolderLaw }
    ensures fits { FitLaw }
{}

/// The motions of each device in a stream come one after the other as the rule of streams says, and leave down just the
/// ids that the window holds.
pub fn gestures()
    ensures live { MotionsLaw }
    ensures each { MotionsComeLaw }
{}

/// The focus changes in a stream follow the rule, and say whether the window has the focus.
pub fn focusing()
    ensures live { FocusLaw }
    ensures each { FocusComesLaw }
{}

/// The messages of each key in a stream follow the rule, and leave down exactly the keys that the window holds, with
/// their next repeat numbers. The last message of a held key is the one that a cancel or a repeat is made from. The
/// terms of a channel are settled when it is opened.
pub fn keys()
    ensures live { KeysLaw }
    ensures each { KeysComeLaw }
    ensures held { HeldKeyLaw }
    ensures last { LastKeyLaw }
    ensures terms { TermsLaw }
{}

/// Who holds a key: some step gave it, and no later one took it. The list, computed step by step, says exactly this.
/// It has each key once, and its keys are down on their devices.
pub fn held_keys()
    ensures places { KeyPlacesLaw }
    ensures down { KeysDownLaw }
{}

/// Every stream is well-formed by the rule of streams, and that of a live channel says what its window holds. Its
/// messages are numbered from 1, and their times never fall.
pub fn whole()
    ensures live { WholeLaw }
    ensures each { WellFormedLaw }
    ensures numbers { NumbersLaw }
{}

/// A pointer that went down in a stream goes up or is cancelled once, unless it is still down or its channel was
/// removed.
pub fn turns()
    ensures live { TurnsLaw }
    ensures each { TurnsComeLaw }
{}

/// Nothing follows a removal: the channel stays removed, its stream stays as it was just before and says what its
/// window held then, and calls on it reply Gone.
pub fn removal()
    ensures stream { RemovedLaw }
    ensures state { RemovedStateLaw }
    ensures gone { GoneLaw }
{}

/// Which channels are unresponsive, and which can take input, after a step.
pub fn responding()
    ensures unresponsive { UnresponsiveStep }
    ensures able { AbleStep }
{}

/// A plan has at most one ordered run, and the function that computes it round by round, up to any number of rounds,
/// finds it.
pub fn ordering()
    ensures sound { OrderedSound }
    ensures complete { OrderedComplete }
    ensures unique { OrderedUnique }
{}
