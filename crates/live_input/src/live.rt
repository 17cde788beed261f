//! The service.
ghost use Rattle.std.specs.Prelude.{◌≡◌, ◌+◌, ◌≤◌, ℕ, true, [], List, replicate, None, IfOk, OnOk, OnErr};
ghost use Rattle.dispatch_calls.specs.declared.call.Call.TheVariants.{Finish, Pump};
ghost use Rattle.dispatch_history.specs.Effect.{Effect};
ghost use Rattle.dispatch_history.specs.Legal.{answered};
ghost use Rattle.dispatch_history.specs.Reply.{reply_to};
ghost use Rattle.dispatcher.specs.Answered.{AnswersCalm, AnswersPumped};
ghost use Rattle.dispatcher.specs.Outcomes.{reply_of};
ghost use Rattle.dispatcher.specs.Queueing.{args_in, is_input};
ghost use Rattle.live_input.specs.Answers.{SameRest};
ghost use Rattle.live_input.specs.Slots.{none_down};
ghost use Rattle.live_input.specs.Seats.{IsHeld, vacant};
ghost use Rattle.live_input.specs.Standing.{IsOfHeld, LiveIs, is_plain};
ghost use Rattle.live_input.specs.State.{latest};

use crate::client::Seat;
use crate::options::Options;
use crate::releasing::release_after;
use crate::slots::Fingers;
use crate::steps::Steps;
use device_table::DeviceTable;
use dispatch_calls::{Call, Reply, Terms};
use dispatcher::{Dispatcher, Outcome};
use input_types::{Args, DisplayId, Displays, Moment};
use std::alloc::{AllocError, Global};
use std::marker::Model;
use window_snapshot::Snapshot;

/// A live service: the dispatcher, with clients and devices that come and go.
///
/// Like the dispatcher, it stands for a history of the dispatcher's calls. Each call of the service makes a stated
/// list of these, and the service then stands for the history extended by them.
#[derive(Drop)]
pub struct Live {
    pub(crate) alloc: Global,
    /// What each channel is opened with.
    pub(crate) terms: Terms,
    /// The latest moment that was handed in.
    pub(crate) clock: Moment,
    pub(crate) dispatcher: Dispatcher,
    /// The seats, from channel 1 on.
    pub(crate) seats: [Seat; 64],
    /// How many clients were opened so far.
    pub(crate) opened: u64,
    pub(crate) windows: Snapshot,
    /// The channel for which the focus of each display was last requested, and the display whose focus gets keys.
    pub(crate) requested: [Option<u32>; 4],
    pub(crate) asked: DisplayId,
    /// The channels whose clients were reported unresponsive by an `advance` that ran out of memory.
    pub(crate) reported: u64,
    pub(crate) devices: DeviceTable,
    /// What devices gave that must still be handed in, oldest first. It is empty unless memory ran out.
    pub(crate) pending: Vec<Args>,
    /// The steps at which messages were published.
    pub(crate) steps: Steps,
    /// The fingers that are down on each panel that is driven finger by finger.
    pub(crate) fingers: [Fingers; 8],
}

impl Model for Live {
    ghost use Rattle.live_input.specs.State.{LiveState};

    ghost Value = { LiveState };

    ghost view = { λ l. record {
      terms = l.terms;
      clock = l.clock;
      dispatcher = l.dispatcher;
      seats = l.seats;
      opened = l.opened;
      windows = l.windows;
      requested = l.requested;
      asked = l.asked;
      reported = l.reported;
      devices = l.devices;
      pending = l.pending.items;
      steps = l.steps;
      fingers = l.fingers;
    } };
}

impl Live {
    /// A service without clients, whose devices are on these displays. All its channels are opened on these terms: a
    /// client that leaves a message unfinished for the limit is reported unresponsive, and keys that its window holds
    /// are repeated after these delays, or never.
    pub fn new(alloc: Global, terms: Terms, displays: &Displays) -> Result<Live, AllocError>
        ensures start { IfOk result (λ l. LiveIs displays.now [] l) }
        ensures terms { IfOk result (λ l. l.terms ≡ terms) }
        ensures clock { IfOk result (λ l. l.clock ≡ 0) }
        ensures seats { IfOk result (λ l. l.seats ≡ replicate 64 vacant) }
        ensures opened { IfOk result (λ l. l.opened ≡ 0) }
        ensures named { IfOk result (λ l. l.reported ≡ 0) }
        ensures devices { IfOk result (λ l. l.devices ≡ replicate 8 None) }
        ensures pending { IfOk result (λ l. l.pending ≡ []) }
        ensures fingers { IfOk result (λ l. l.fingers ≡ replicate 8 (none_down 0)) }
    {
        let dispatcher = Dispatcher::new(alloc, displays)?;
        Ok(Live {
            alloc,
            terms,
            clock: Moment::zero(),
            dispatcher,
            seats: vacant(),
            opened: 0,
            windows: Snapshot::empty(alloc),
            requested: [None; 4],
            asked: DisplayId::zero(),
            reported: 0,
            devices: DeviceTable::new(),
            pending: Vec::new(alloc),
            steps: Steps::new(),
            fingers: [Fingers::new(0); 8],
        })
    }

    /// Raises the clock to a time, if that is later. Returns the clock.
    pub(crate) fn raise(&mut self, now: Moment) -> Moment
        ensures latest { result ≡ latest now self.old }
        ensures rest { self.new ≡ record self.old { clock = latest now self.old } }
    {
        let now = now.later(self.clock);
        self.clock = now;
        now
    }

    /// Makes one call of the dispatcher, and releases what it received and what a tick recorded. If memory runs out,
    /// nothing changes.
    pub(crate) fn apply(&mut self, call: &Call) -> Result<Reply, AllocError>
        ensures after { (ds : List ℕ) (es : List Effect) → LiveIs ds es self.old → is_plain call.now ≡ true
            → IsOfHeld self.old.seats call.now → OnOk result (LiveIs ds (answered ds call.now es) self.new) }
        ensures reply { (ds : List ℕ) (es : List Effect) → LiveIs ds es self.old
            → IfOk result (λ answer. answer ≡ reply_to es call.now) }
        ensures rest { self.new ≡ record self.old { dispatcher = self.new.dispatcher; steps = self.new.steps } }
        ensures err { OnErr result (self.new ≡ self.old) }
        ensures calm { AnswersCalm call.now self.old.dispatcher result }
        ensures pumped { AnswersPumped call.now self.old.dispatcher result }
        ensures pumps { is_input call.now ≡ true
            → self.old.dispatcher.queue.pumps ≤ self.new.dispatcher.queue.pumps + 1 }
        ensures room { OnOk result
            (self.old.dispatcher.queue.spare ≤ self.new.dispatcher.queue.spare + args_in call.now) }
    {
        match self.dispatcher.apply(call) {
            Ok(reply) => {
                self.steps.go(&self.dispatcher, call);
                release_after(&mut self.dispatcher, call);
                Ok(reply)
            }
            Err(error) => Err(error),
        }
    }

    /// Dispatches the first args that wait; if none wait, repeats a held key. If memory runs out, nothing changes.
    pub(crate) fn pump(&mut self, now: Moment) -> Result<(), AllocError>
        ensures after { (ds : List ℕ) (es : List Effect) → LiveIs ds es self.old
            → OnOk result (LiveIs ds (answered ds (Pump now) es) self.new) }
        ensures rest { self.new ≡ record self.old { dispatcher = self.new.dispatcher; steps = self.new.steps } }
        ensures err { OnErr result (self.new ≡ self.old) }
        ensures pumped { AnswersPumped (Pump now) self.old.dispatcher result }
        ensures pumps { self.old.dispatcher.queue.pumps ≤ self.new.dispatcher.queue.pumps + 1 }
        ensures room { OnOk result (self.old.dispatcher.queue.spare ≤ self.new.dispatcher.queue.spare) }
    {
        match self.dispatcher.pump(now) {
            Ok(_) => {
                self.steps.go_all(&self.dispatcher);
                Ok(())
            }
            Err(error) => Err(error),
        }
    }

    /// A client finishes a message. If memory runs out, nothing changes.
    pub(crate) fn finish_one(
        &mut self,
        now: Moment,
        channel: u32,
        seq: u64,
    ) -> Result<Outcome, AllocError>
        ensures after { (ds : List ℕ) (es : List Effect) → LiveIs ds es self.old → IsHeld channel self.old.seats
            → OnOk result (LiveIs ds (answered ds (Finish now channel seq) es) self.new) }
        ensures reply { (ds : List ℕ) (es : List Effect) → LiveIs ds es self.old
            → IfOk result (λ outcome. reply_of outcome ≡ reply_to es (Finish now channel seq)) }
        ensures rest { self.new ≡ record self.old { dispatcher = self.new.dispatcher; steps = self.new.steps } }
        ensures err { OnErr result (self.new ≡ self.old) }
        ensures calm { AnswersCalm (Finish now channel seq) self.old.dispatcher result }
    {
        match self.dispatcher.finish(now, channel, seq) {
            Ok(outcome) => {
                self.steps.go_on(&self.dispatcher, channel);
                Ok(outcome)
            }
            Err(error) => Err(error),
        }
    }

    /// Makes one call of the dispatcher without reading its reply. If memory runs out, nothing changes.
    pub(crate) fn make(&mut self, call: &Call) -> Result<(), AllocError>
        ensures after { (ds : List ℕ) (es : List Effect) → LiveIs ds es self.old → is_plain call.now ≡ true
            → IsOfHeld self.old.seats call.now → OnOk result (LiveIs ds (answered ds call.now es) self.new) }
        ensures rest { SameRest self.old self.new }
        ensures windows { self.new.windows ≡ self.old.windows }
        ensures requests { self.new.requested ≡ self.old.requested }
        ensures err { OnErr result (self.new ≡ self.old) }
        ensures pumped { AnswersPumped call.now self.old.dispatcher result }
        ensures pumps { is_input call.now ≡ true
            → self.old.dispatcher.queue.pumps ≤ self.new.dispatcher.queue.pumps + 1 }
        ensures room { OnOk result
            (self.old.dispatcher.queue.spare ≤ self.new.dispatcher.queue.spare + args_in call.now) }
    {
        match self.apply(call) {
            Ok(_) => Ok(()),
            Err(error) => Err(error),
        }
    }
}

/// Seats without clients.
fn vacant() -> [Seat; 64]
    ensures { result ≡ replicate 64 vacant }
{
    [Seat {
        holder: None,
        before: 0,
        options: Options::new(),
    }; 64]
}
