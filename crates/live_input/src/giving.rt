//! What devices give: events, and ready-made args.
ghost use Rattle.std.specs.Prelude.{◌≡◌, ◌==◌, ◌&&◌, ◌+◌, ◌≤◌, ℕ, true, false, List, [], ◌∷◌, drop, length, slice_get, Err, IfOk, IsOk, OnOk, OnErr, ◌*◌};
ghost use Rattle.dispatch_calls.specs.declared.call.Call.TheVariants.{Notify};
ghost use Rattle.dispatch_history.specs.Effect.{Effect};
ghost use Rattle.dispatch_history.specs.Legal.{answered};
ghost use Rattle.dispatch_history.specs.Reply.{reply_to};
ghost use Rattle.input_types.specs.DeviceRule.{device_of};
ghost use Rattle.dispatcher.specs.Access.{is_waiting};
ghost use Rattle.dispatcher.specs.Answered.{AnswersReserved};
ghost use Rattle.dispatcher.specs.Dispatching.{IsAfter};
ghost use Rattle.dispatcher.specs.Outcomes.{reply_of};
ghost use Rattle.raw_events.specs.declared.event.RawEvent.{RawEvent as Event};
ghost use Rattle.device_reader.specs.Cooked.{DevicePlan};
ghost use Rattle.device_table.specs.Table.{StandsAt, is_there, reader_of};
ghost use Rattle.live_input.specs.Answers.{SameRest, SameSeats, is_taken};
ghost use Rattle.live_input.specs.Giving.{Delivers, Gives, GivesEvent, HandedInPart, IsFed, all_taken, notified};
ghost use Rattle.live_input.specs.Room.{GivesAtOnce, GoesAtOnce, HandsOver, HasRoom, MayCountMore, most_args};
ghost use Rattle.live_input.specs.Settling.{waits};
ghost use Rattle.live_input.specs.Standing.{LiveIs};
ghost use Rattle.live_input.specs.State.{latest};

use crate::live::Live;
use crate::refused::ArgsRefused;
use dispatcher::Outcome;
use dispatcher::inbound::device_of;
use input_types::{Args, DeviceId, Moment};
use raw_events::RawEvent;
use std::alloc::AllocError;

impl Live {
    /// Hands in an event of a device, as in the kernel's `struct input_event`. Its reader cooks it, and the resulting
    /// args are dispatched to the windows.
    ///
    /// After a SYN_DROPPED the device is reset, and everything that was down on it is cancelled. The caller must then
    /// hand in the device's current state as events too: each slot with a finger, with its tracking id and position,
    /// and a SYN_REPORT. libevdev has it (`libevdev_get_slot_value`) once its sync is done; the events of the sync
    /// contain only what changed. The same holds for a device that is plugged in while fingers are down.
    pub fn event(
        &mut self,
        now: Moment,
        device: DeviceId,
        kind: u16,
        code: u16,
        value: i32,
    ) -> Result<(), ArgsRefused>
        ensures none { is_there self.old.devices device ≡ false
            → (result ≡ Err ArgsRefused.NoDevice) × (self.new ≡ self.old) }
        ensures after { (ds : List ℕ) (es : List Effect) (plan : DevicePlan) (past : List Event) → LiveIs ds es self.old
            → StandsAt plan past device self.old.devices
            → GivesEvent ds (latest now self.old) es plan past
            (record { device = device; moment = latest now self.old; kind = kind; code = code; value = value })
            result self.old self.new }
        ensures fits { (ds : List ℕ) (es : List Effect) (plan : DevicePlan) (past : List Event) → LiveIs ds es self.old
            → StandsAt plan past device self.old.devices → self.old.pending ≡ [] → IsFed plan past es
            → result ≡ Err ArgsRefused.Inconsistent → ⊥ }
        ensures reserved { (n : ℕ) (ds : List ℕ) (es : List Effect) (plan : DevicePlan) (past : List Event)
            → LiveIs ds es self.old → StandsAt plan past device self.old.devices → waits es self.old ≡ false
            → GivesAtOnce n es plan past
            (record { device = device; moment = latest now self.old; kind = kind; code = code; value = value })
            result self.old self.new }
        ensures others { (d : ℕ) → 1 ≤ d → (d == device) ≡ false
            → reader_of self.new.devices d ≡ reader_of self.old.devices d }
        ensures seats { SameSeats self.old self.new }
        ensures named { self.new.reported ≡ self.old.reported }
    {
        if !self.devices.is_there(device) {
            return Err(ArgsRefused::NoDevice);
        }
        let now = now.later(self.clock);
        let event = event_of(now, device, kind, code, value);
        match self.devices.take_into(event, &mut self.pending) {
            Ok(()) => {
                self.clock = now;
                self.deliver(now)
            }
            Err(_) => Err(ArgsRefused::Memory),
        }
    }

    /// Dispatches ready-made motions and keys of a plugged-in device to the windows.
    pub fn args(&mut self, now: Moment, args: Args) -> Result<(), ArgsRefused>
        ensures none { is_there self.old.devices (device_of args) ≡ false
            → (result ≡ Err ArgsRefused.NoDevice) × (self.new ≡ self.old) }
        ensures after { (ds : List ℕ) (es : List Effect) → LiveIs ds es self.old
            → is_there self.old.devices (device_of args) ≡ true
            → Gives ds (latest now self.old) es (args ∷ []) (self.new.devices ≡ self.old.devices)
            result self.old self.new }
        ensures devices { self.new.devices ≡ self.old.devices }
        ensures seats { SameSeats self.old self.new }
        ensures named { self.new.reported ≡ self.old.reported }
    {
        if !self.devices.is_there(device_of(&args)) {
            return Err(ArgsRefused::NoDevice);
        }
        let now = now.later(self.clock);
        match self.pending.push(args) {
            Ok(()) => {
                self.clock = now;
                self.deliver(now)
            }
            Err(_) => Err(ArgsRefused::Memory),
        }
    }

    /// Hands in everything that still waits to be handed in, and dispatches it.
    pub(crate) fn deliver(&mut self, now: Moment) -> Result<(), ArgsRefused>
        ensures after { (ds : List ℕ) (es : List Effect) → LiveIs ds es self.old
            → Delivers ds now es self.old.pending result self.new }
        ensures reserved { (n : ℕ) (ds : List ℕ) (es : List Effect) → LiveIs ds es self.old → is_waiting es ≡ false
            → HasRoom (length self.old.pending + n) self.old
            → MayCountMore (length self.old.pending + length self.old.pending) es → GoesAtOnce n result self.new }
        ensures devices { self.new.devices ≡ self.old.devices }
        ensures seats { SameSeats self.old self.new }
        ensures named { self.new.reported ≡ self.old.reported }
        ensures clock { self.new.clock ≡ self.old.clock }
    {
        if self.is_quiet() {
            return Ok(());
        }
        match self.hand_in(now) {
            Ok(fits) => match self.dispatch_waiting(now) {
                Ok(()) => {
                    if fits {
                        Ok(())
                    } else {
                        Err(ArgsRefused::Inconsistent)
                    }
                }
                Err(_) => Err(ArgsRefused::Waits),
            },
            Err(_) => Err(ArgsRefused::Waits),
        }
    }

    /// Whether nothing must be handed in, and nothing waits to be dispatched.
    fn is_quiet(&self) -> bool
        ensures pending { result ≡ true → self.now.pending ≡ [] }
        ensures waiting { (es : List Effect) → IsAfter es self.now.dispatcher → result ≡ true → is_waiting es ≡ false }
    {
        if self.dispatcher.is_waiting() {
            false
        } else {
            self.pending.is_empty()
        }
    }

    /// Hands in what still waits to be handed in, one after another. Returns whether all of it was accepted.
    #[tactic(auto, using(crate::proofs::Roomy::hands_over_first))]
    pub(crate) fn hand_in(&mut self, now: Moment) -> Result<bool, AllocError>
        ensures after { (ds : List ℕ) (es : List Effect) → LiveIs ds es self.old
            → OnOk result (LiveIs ds (notified ds now es self.old.pending) self.new) }
        ensures fits { (ds : List ℕ) (es : List Effect) → LiveIs ds es self.old
            → IfOk result (λ fits. fits ≡ all_taken ds now es self.old.pending) }
        ensures none { OnOk result (self.new.pending ≡ []) }
        ensures part { (ds : List ℕ) (es : List Effect) → LiveIs ds es self.old
            → OnErr result (HandedInPart ds now es self.old.pending self.new) }
        ensures room { (ds : List ℕ) (es : List Effect) → LiveIs ds es self.old → HandsOver self.old self.new }
        ensures reserved { (ds : List ℕ) (es : List Effect) → LiveIs ds es self.old
            → length self.old.pending ≤ self.old.dispatcher.queue.spare
            → MayCountMore (length self.old.pending) es → IsOk result }
        ensures devices { self.new.devices ≡ self.old.devices }
        ensures seats { SameSeats self.old self.new }
        ensures named { self.new.reported ≡ self.old.reported }
        ensures clock { self.new.clock ≡ self.old.clock }
    {
        let mut fits = true;
        for made in 0..u64::MAX {
            let Some(next) = first_of(&self.pending) else {
                return Ok(fits);
            };
            let is_taken = self.notify(now, next)?;
            drop_first(&mut self.pending);
            fits = still_fits(fits, is_taken);
        }
        Err(AllocError)
    }

    /// Queues args behind those that wait, if they fit the earlier ones. Returns whether they do.
    fn notify(&mut self, now: Moment, args: Args) -> Result<bool, AllocError>
        ensures after { (ds : List ℕ) (es : List Effect) → LiveIs ds es self.old
            → OnOk result (LiveIs ds (answered ds (Notify now args) es) self.new) }
        ensures taken { (ds : List ℕ) (es : List Effect) → LiveIs ds es self.old
            → IfOk result (λ fits. fits ≡ is_taken (reply_to es (Notify now args))) }
        ensures rest { SameRest self.old self.new }
        ensures err { OnErr result (self.new ≡ self.old) }
        ensures reserved { AnswersReserved (Notify now args) self.old.dispatcher result }
        ensures pumps { OnOk result (self.new.dispatcher.queue.pumps ≡ self.old.dispatcher.queue.pumps) }
        ensures room { OnOk result (self.old.dispatcher.queue.spare ≤ self.new.dispatcher.queue.spare + 1) }
    {
        let outcome = self.dispatcher.notify(now, &args)?;
        self.steps.pass();
        Ok(is_taken(outcome))
    }

    /// Makes room for the next `events` events, of any devices: none of them waits for memory, if nothing waits now and
    /// no other call comes between. If memory runs out, nothing changes.
    ///
    /// An event gives at most 33 args, and for each of them there is room for 131 messages in every channel that was
    /// opened.
    pub fn reserve(&mut self, events: u16) -> Result<(), AllocError>
        ensures room { OnOk result (HasRoom (events * most_args) self.new) }
        ensures rest { self.new ≡ record self.old { dispatcher = self.new.dispatcher } }
        ensures stands { (ds : List ℕ) (es : List Effect) → LiveIs ds es self.old → LiveIs ds es self.new }
        ensures err { OnErr result (self.new ≡ self.old) }
        ensures again { HasRoom (events * most_args) self.old → IsOk result }
    {
        self.dispatcher.reserve(events as u32 * 33)?;
        Ok(())
    }
}

/// Whether all earlier args fitted and the next ones do.
fn still_fits(fits: bool, is_taken: bool) -> bool
    ensures { result ≡ (fits && is_taken) }
{
    fits && is_taken
}

/// The event of a device at a moment.
fn event_of(now: Moment, device: DeviceId, kind: u16, code: u16, value: i32) -> RawEvent
    ensures { result ≡ record { device = device; moment = now; kind = kind; code = code; value = value } }
{
    RawEvent {
        device,
        moment: now,
        kind,
        code,
        value,
    }
}

/// The first of some args.
fn first_of(args: &[Args]) -> Option<Args>
    ensures { result ≡ slice_get args.now 0 }
{
    args.first().copied()
}

/// The args after the first.
#[tactic(auto, using(crate::proofs::Handing::drop_none, crate::proofs::Handing::remove_first))]
fn drop_first(args: &mut Vec<Args>)
    ensures { args.new.items ≡ drop 1 args.old.items }
{
    if !args.as_slice().is_empty() {
        args.remove(0);
    }
}

/// Whether args were taken.
fn is_taken(outcome: Outcome) -> bool
    ensures { result ≡ is_taken (reply_of outcome) }
{
    matches!(outcome, Outcome::Taken)
}
