//! What devices give, and pilfers, where clients may be choked.
ghost use Rattle.std.specs.Prelude.{◌≡◌, ◌==◌, ◌∷◌, ◌-◌, ◌≤◌, [], ℕ, true, false, None, Err, List, slice_set};
ghost use Rattle.dispatch_calls.specs.declared.call.Call.TheVariants.{Pilfer};
ghost use Rattle.dispatch_history.specs.Effect.{Effect};
ghost use Rattle.input_types.specs.DeviceRule.{device_of};
ghost use Rattle.input_types.specs.declared.message.Args.TheVariants.{Reset};
ghost use Rattle.raw_events.specs.declared.event.RawEvent.{RawEvent as Event};
ghost use Rattle.device_reader.specs.Cooked.{DevicePlan};
ghost use Rattle.device_table.specs.Table.{StandsAt, is_there, reader_of};
ghost use Rattle.live_input.specs.Answers.{Pilfers, SameClients, SameSeats};
ghost use Rattle.live_input.specs.Easing.{EasedFirst, IsCalm, KeepsReported};
ghost use Rattle.live_input.specs.Giving.{Gives, GivesEvent, IsFed};
ghost use Rattle.live_input.specs.LimitedCalls.{ReportsChoked};
ghost use Rattle.live_input.specs.Room.{GivesAtOnce};
ghost use Rattle.live_input.specs.Seats.{is_open};
ghost use Rattle.live_input.specs.Settling.{waits};
ghost use Rattle.live_input.specs.Standing.{LiveIs};
ghost use Rattle.live_input.specs.State.{latest};

use crate::client::Client;
use crate::limit::Limited;
use crate::live::Live;
use crate::refused::{ArgsRefused, PilferRefused};
use dispatcher::inbound::device_of;
use input_types::{Args, DeviceId, Moment};

impl Limited {
    /// As [`Live::args`], after choking and releasing clients.
    pub fn args(&mut self, now: Moment, args: Args) -> Result<(), ArgsRefused>
        ensures none { is_there self.old.live.devices (device_of args) ≡ false
            → (result ≡ Err ArgsRefused.NoDevice) × (self.new ≡ self.old) }
        ensures after { (ds : List ℕ) (es : List Effect) → LiveIs ds es self.old.live
            → is_there self.old.live.devices (device_of args) ≡ true
            → EasedFirst ds (latest now self.old.live) es self.old self.new (result ≡ Err ArgsRefused.Memory)
            (λ fs eased. Gives ds (latest now self.old.live) fs (args ∷ [])
            (self.new.live.devices ≡ self.old.live.devices) result eased.live self.new.live
            × (self.new.wanted ≡ eased.wanted)) }
        ensures devices { self.new.live.devices ≡ self.old.live.devices }
        ensures seats { SameSeats self.old.live self.new.live }
        ensures named { KeepsReported self.old.live.reported self.new.live.reported }
        ensures reports { (ds : List ℕ) (es : List Effect) → LiveIs ds es self.old.live
            → ReportsChoked self.old self.new }
    {
        if !self.live.has_device(device_of(&args)) {
            return Err(ArgsRefused::NoDevice);
        }
        match self.ease(now) {
            Ok(()) => self.live.args(now, args),
            Err(_) => Err(ArgsRefused::Memory),
        }
    }

    /// As [`Live::remove_device`], after choking and releasing clients.
    pub fn remove_device(&mut self, now: Moment, device: DeviceId) -> Result<(), ArgsRefused>
        ensures none { is_there self.old.live.devices device ≡ false
            → (result ≡ Err ArgsRefused.NoDevice) × (self.new ≡ self.old) }
        ensures after { (ds : List ℕ) (es : List Effect) → LiveIs ds es self.old.live
            → is_there self.old.live.devices device ≡ true
            → EasedFirst ds (latest now self.old.live) es self.old self.new (result ≡ Err ArgsRefused.Memory)
            (λ fs eased. Gives ds (latest now self.old.live) fs (Reset device ∷ [])
            (self.new.live.devices ≡ slice_set self.old.live.devices (device - 1) None) result eased.live self.new.live
            × (self.new.wanted ≡ eased.wanted)) }
        ensures seats { SameSeats self.old.live self.new.live }
        ensures named { KeepsReported self.old.live.reported self.new.live.reported }
        ensures reports { (ds : List ℕ) (es : List Effect) → LiveIs ds es self.old.live
            → ReportsChoked self.old self.new }
    {
        if !self.live.has_device(device) {
            return Err(ArgsRefused::NoDevice);
        }
        match self.ease(now) {
            Ok(()) => self.live.remove_device(now, device),
            Err(_) => Err(ArgsRefused::Memory),
        }
    }

    /// As [`Live::pilfer`], after choking and releasing clients.
    pub fn pilfer(
        &mut self,
        now: Moment,
        client: Client,
        device: DeviceId,
    ) -> Result<(), PilferRefused>
        ensures stale { is_open self.old.live.seats client ≡ false
            → (result ≡ Err PilferRefused.NotOpen) × (self.new ≡ self.old) }
        ensures after { (ds : List ℕ) (es : List Effect) → LiveIs ds es self.old.live
            → is_open self.old.live.seats client ≡ true
            → EasedFirst ds (latest now self.old.live) es self.old self.new (result ≡ Err PilferRefused.Memory)
            (λ fs eased. Pilfers ds fs (Pilfer (latest now self.old.live) client.channel device) result
            eased.live self.new.live × (self.new.wanted ≡ eased.wanted)) }
        ensures clients { SameClients self.old.live self.new.live }
        ensures named { KeepsReported self.old.live.reported self.new.live.reported }
        ensures reports { (ds : List ℕ) (es : List Effect) → LiveIs ds es self.old.live
            → ReportsChoked self.old self.new }
    {
        if !self.live.is_open(client) {
            return Err(PilferRefused::NotOpen);
        }
        match self.ease(now) {
            Ok(()) => self.live.pilfer(now, client, device),
            Err(_) => Err(PilferRefused::Memory),
        }
    }

    /// As [`Live::event`], after choking and releasing clients.
    pub fn event(
        &mut self,
        now: Moment,
        device: DeviceId,
        kind: u16,
        code: u16,
        value: i32,
    ) -> Result<(), ArgsRefused>
        ensures none { is_there self.old.live.devices device ≡ false
            → (result ≡ Err ArgsRefused.NoDevice) × (self.new ≡ self.old) }
        ensures after { (ds : List ℕ) (es : List Effect) (plan : DevicePlan) (past : List Event)
            → LiveIs ds es self.old.live → StandsAt plan past device self.old.live.devices
            → EasedFirst ds (latest now self.old.live) es self.old self.new (result ≡ Err ArgsRefused.Memory)
            (λ fs eased. GivesEvent ds (latest now self.old.live) fs plan past
            (record { device = device; moment = latest now self.old.live; kind = kind; code = code; value = value })
            result eased.live self.new.live × (self.new.wanted ≡ eased.wanted)) }
        ensures fits { (ds : List ℕ) (es : List Effect) (plan : DevicePlan) (past : List Event)
            → LiveIs ds es self.old.live → StandsAt plan past device self.old.live.devices
            → self.old.live.pending ≡ [] → IsFed plan past es → result ≡ Err ArgsRefused.Inconsistent → ⊥ }
        ensures reserved { (n : ℕ) (ds : List ℕ) (es : List Effect) (plan : DevicePlan) (past : List Event)
            → LiveIs ds es self.old.live → IsCalm es self.old → StandsAt plan past device self.old.live.devices
            → waits es self.old.live ≡ false → GivesAtOnce n es plan past
            (record { device = device; moment = latest now self.old.live; kind = kind; code = code; value = value })
            result self.old.live self.new.live }
        ensures seats { SameSeats self.old.live self.new.live }
        ensures named { KeepsReported self.old.live.reported self.new.live.reported }
        ensures reports { (ds : List ℕ) (es : List Effect) → LiveIs ds es self.old.live
            → ReportsChoked self.old self.new }
        ensures others { (d : ℕ) → 1 ≤ d → (d == device) ≡ false
            → reader_of self.new.live.devices d ≡ reader_of self.old.live.devices d }
    {
        if !self.live.has_device(device) {
            return Err(ArgsRefused::NoDevice);
        }
        match self.ease(now) {
            Ok(()) => self.live.event(now, device, kind, code, value),
            Err(_) => Err(ArgsRefused::Memory),
        }
    }
}

impl Live {
    /// Whether a device is plugged in.
    pub(crate) fn has_device(&self, device: DeviceId) -> bool
        ensures { result ≡ is_there self.now.devices device }
    {
        self.devices.is_there(device)
    }
}
