//! The steps at which messages were published.
//!
//! A step is one call of the dispatcher. The tables of the dispatcher tell the time of a message, which many steps
//! share; so the service keeps the number of the step beside them, for the 64 messages of a channel that can wait.
ghost use Rattle.std.specs.Prelude.{◌≡◌, ◌+◌, ◌-◌, ◌^◌, ◌<◌, ◌%◌, ℕ, max, true, List, replicate, slice_set};
ghost use Rattle.dispatch_calls.specs.declared.call.Call.{Call as CallView};
ghost use Rattle.dispatch_calls.specs.declared.call.Call.TheVariants.{Finish};
ghost use Rattle.dispatch_history.specs.Effect.{Effect};
ghost use Rattle.dispatch_history.specs.Legal.{answered};
ghost use Rattle.dispatcher.specs.Dispatching.{IsAfter};
ghost use Rattle.window_snapshot.specs.Mask.{is_channel};
ghost use Rattle.live_input.specs.Steps.{NotesOnly, NotesAll, Remembers, StepsAre, at_or, counted, kept_step, no_step, recent_of};

use dispatch_calls::Call;
use dispatcher::Dispatcher;
use window_snapshot::is_channel;

/// How many messages of a channel were published, and the steps at which the last 64 of them were: that of message `k`
/// stands at the index `k % 64`.
#[derive(Clone, Copy)]
pub(crate) struct Recent {
    pub(crate) published: u64,
    pub(crate) steps: [u64; 64],
}

impl Recent {
    /// No message.
    fn new() -> Recent
        ensures { result ≡ no_step }
    {
        Recent {
            published: 0,
            steps: [0; 64],
        }
    }

    /// Records that every message up to the last one is published, and those that were not before at this step.
    fn publish(&mut self, last: u64, step: u64)
        ensures published { self.new.published ≡ max self.old.published last }
        ensures steps { (at : ℕ → ℕ) → Remembers at self.old
            → Remembers (at_or at self.old.published step) self.new }
    {
        while self.published < last {
            self.put(step);
        }
    }

    /// Records that one message more is published at this step.
    fn put(&mut self, step: u64)
        requires { self.old.published < 2 ^ 64 - 1 }
        ensures published { self.new.published ≡ self.old.published + 1 }
        ensures steps { self.new.steps ≡ slice_set self.old.steps ((self.old.published + 1) % 64) step }
    {
        self.published += 1;
        self.steps[(self.published % 64) as usize] = step;
    }
}

/// How many calls the dispatcher answered, and for each channel the steps at which its last messages were published.
/// The count stays at 2^64 - 1.
#[derive(Drop)]
pub(crate) struct Steps {
    pub(crate) made: u64,
    pub(crate) channels: [Recent; 64],
}

impl Steps {
    /// Before the first call.
    pub(crate) fn new() -> Steps
        ensures { result ≡ record { made = 0; channels = replicate 64 no_step } }
    {
        Steps {
            made: 0,
            channels: [Recent::new(); 64],
        }
    }

    /// The step that is kept of a message of a channel.
    pub(crate) fn of(&self, channel: u32, seq: u64) -> u64
        requires { is_channel channel ≡ true }
        ensures { result ≡ kept_step (recent_of self.now channel) seq }
    {
        self.channels[channel as usize - 1].steps[(seq % 64) as usize]
    }

    /// Records a call that the dispatcher just answered, and what it published by it.
    pub(crate) fn go(&mut self, dispatcher: &Dispatcher, call: &Call)
        ensures { (ds : List ℕ) (es : List Effect) → dispatcher.now.displays ≡ ds
            → IsAfter (answered ds call.now es) dispatcher.now → StepsAre es self.old
            → StepsAre (answered ds call.now es) self.new }
    {
        match call {
            Call::Receive { .. } => self.pass(),
            Call::Finish { channel, .. } => self.go_on(dispatcher, *channel),
            _ => self.go_all(dispatcher),
        }
    }

    /// Records the finish of a message, by which the dispatcher may have published something in its channel.
    pub(crate) fn go_on(&mut self, dispatcher: &Dispatcher, channel: u32)
        ensures { (ds : List ℕ) (now seq : ℕ) (es : List Effect) → dispatcher.now.displays ≡ ds
            → IsAfter (answered ds (Finish now channel seq) es) dispatcher.now → StepsAre es self.old
            → StepsAre (answered ds (Finish now channel seq) es) self.new }
    {
        self.pass();
        self.note_some(dispatcher, channel);
    }

    /// Records a call by which the dispatcher may have published something in any channel.
    pub(crate) fn go_all(&mut self, dispatcher: &Dispatcher)
        ensures { (ds : List ℕ) (call : CallView) (es : List Effect) → dispatcher.now.displays ≡ ds
            → IsAfter (answered ds call es) dispatcher.now → StepsAre es self.old
            → StepsAre (answered ds call es) self.new }
    {
        self.pass();
        self.note_all(dispatcher);
    }

    /// Records a call by which nothing was published.
    pub(crate) fn pass(&mut self)
        ensures { self.new ≡ counted self.old }
    {
        self.made = self.made.saturating_add(1);
    }

    /// Records what the dispatcher published in any channel.
    fn note_all(&mut self, dispatcher: &Dispatcher)
        ensures { (es : List Effect) → IsAfter es dispatcher.now → NotesAll es self.old self.new }
    {
        for place in 0..dispatcher.opened() {
            self.note(dispatcher, place + 1);
        }
    }

    /// Records what the dispatcher published in a channel, if it is one of the 64.
    fn note_some(&mut self, dispatcher: &Dispatcher, channel: u32)
        ensures { (es : List Effect) → IsAfter es dispatcher.now → NotesOnly es channel self.old self.new }
    {
        if is_channel(channel) {
            self.note(dispatcher, channel);
        }
    }

    /// Records what the dispatcher published in a channel.
    fn note(&mut self, dispatcher: &Dispatcher, channel: u32)
        requires { is_channel channel ≡ true }
        ensures { (es : List Effect) → IsAfter es dispatcher.now → NotesOnly es channel self.old self.new }
    {
        let step = self.made;
        if let Some(counts) = dispatcher.counts(channel) {
            self.channels[channel as usize - 1].publish(counts.published, step);
        }
    }
}
