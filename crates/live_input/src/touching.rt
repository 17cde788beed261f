//! Single fingers of a panel, where clients may be choked.
ghost use Rattle.std.specs.Prelude.{◌≡◌, ℕ, false, Err, List};
ghost use Rattle.dispatch_history.specs.Effect.{Effect};
ghost use Rattle.raw_events.specs.declared.event.RawEvent.{RawEvent as Event};
ghost use Rattle.device_reader.specs.Cooked.{DevicePlan};
ghost use Rattle.device_table.specs.Table.{StandsAt, is_there};
ghost use Rattle.live_input.specs.Easing.{EasedFirst, IsCalm, KeepsReported, at_clock};
ghost use Rattle.live_input.specs.Fingers.{OthersStay, SameHolders, TouchGoes, TouchGoesAtOnce, cancelled, down, framed, lifted, moved};
ghost use Rattle.live_input.specs.LimitedCalls.{ReportsChoked};
ghost use Rattle.live_input.specs.Settling.{waits};
ghost use Rattle.live_input.specs.Slots.{fingers_of};
ghost use Rattle.live_input.specs.Standing.{LiveIs};
ghost use Rattle.live_input.specs.State.{latest};

use crate::limit::Limited;
use crate::refused::{ArgsRefused, FingerRefused};
use input_types::{DeviceId, Moment};

impl Limited {
    /// As [`Live::touch_down`], after choking and releasing clients.
    pub fn touch_down(
        &mut self,
        now: Moment,
        device: DeviceId,
        id: i32,
        x: i32,
        y: i32,
    ) -> Result<(), FingerRefused>
        ensures none { is_there self.old.live.devices device ≡ false
            → (result ≡ Err (FingerRefused.Device ArgsRefused.NoDevice)) × (self.new ≡ self.old) }
        ensures after { (ds : List ℕ) (es : List Effect) (plan : DevicePlan) (past : List Event)
            → LiveIs ds es self.old.live → StandsAt plan past device self.old.live.devices
            → EasedFirst ds (latest now self.old.live) es self.old self.new
            (result ≡ Err (FingerRefused.Device ArgsRefused.Memory))
            (λ fs eased. TouchGoes ds (latest now self.old.live) fs plan past device
            (down (fingers_of self.old.live.fingers device) id x y) result eased.live self.new.live
            × (self.new.wanted ≡ eased.wanted)) }
        ensures reserved { (n : ℕ) (ds : List ℕ) (es : List Effect) (plan : DevicePlan) (past : List Event)
            → LiveIs ds es self.old.live → IsCalm es self.old → StandsAt plan past device self.old.live.devices
            → waits es self.old.live ≡ false → TouchGoesAtOnce n (latest now self.old.live) es plan past device
            (down (fingers_of self.old.live.fingers device) id x y) result
            (at_clock (latest now self.old.live) self.old).live self.new.live }
        ensures others { OthersStay device self.old.live self.new.live }
        ensures seats { SameHolders self.old.live self.new.live }
        ensures named { KeepsReported self.old.live.reported self.new.live.reported }
        ensures reports { (ds : List ℕ) (es : List Effect) → LiveIs ds es self.old.live
            → ReportsChoked self.old self.new }
    {
        if !self.live.has_device(device) {
            return Err(FingerRefused::Device(ArgsRefused::NoDevice));
        }
        match self.ease(now) {
            Ok(()) => self.live.touch_down(now, device, id, x, y),
            Err(_) => Err(FingerRefused::Device(ArgsRefused::Memory)),
        }
    }

    /// As [`Live::touch_motion`], after choking and releasing clients.
    pub fn touch_motion(
        &mut self,
        now: Moment,
        device: DeviceId,
        id: i32,
        x: i32,
        y: i32,
    ) -> Result<(), FingerRefused>
        ensures none { is_there self.old.live.devices device ≡ false
            → (result ≡ Err (FingerRefused.Device ArgsRefused.NoDevice)) × (self.new ≡ self.old) }
        ensures after { (ds : List ℕ) (es : List Effect) (plan : DevicePlan) (past : List Event)
            → LiveIs ds es self.old.live → StandsAt plan past device self.old.live.devices
            → EasedFirst ds (latest now self.old.live) es self.old self.new
            (result ≡ Err (FingerRefused.Device ArgsRefused.Memory))
            (λ fs eased. TouchGoes ds (latest now self.old.live) fs plan past device
            (moved (fingers_of self.old.live.fingers device) id x y) result eased.live self.new.live
            × (self.new.wanted ≡ eased.wanted)) }
        ensures reserved { (n : ℕ) (ds : List ℕ) (es : List Effect) (plan : DevicePlan) (past : List Event)
            → LiveIs ds es self.old.live → IsCalm es self.old → StandsAt plan past device self.old.live.devices
            → waits es self.old.live ≡ false → TouchGoesAtOnce n (latest now self.old.live) es plan past device
            (moved (fingers_of self.old.live.fingers device) id x y) result
            (at_clock (latest now self.old.live) self.old).live self.new.live }
        ensures others { OthersStay device self.old.live self.new.live }
        ensures seats { SameHolders self.old.live self.new.live }
        ensures named { KeepsReported self.old.live.reported self.new.live.reported }
        ensures reports { (ds : List ℕ) (es : List Effect) → LiveIs ds es self.old.live
            → ReportsChoked self.old self.new }
    {
        if !self.live.has_device(device) {
            return Err(FingerRefused::Device(ArgsRefused::NoDevice));
        }
        match self.ease(now) {
            Ok(()) => self.live.touch_motion(now, device, id, x, y),
            Err(_) => Err(FingerRefused::Device(ArgsRefused::Memory)),
        }
    }

    /// As [`Live::touch_up`], after choking and releasing clients.
    pub fn touch_up(&mut self, now: Moment, device: DeviceId, id: i32) -> Result<(), FingerRefused>
        ensures none { is_there self.old.live.devices device ≡ false
            → (result ≡ Err (FingerRefused.Device ArgsRefused.NoDevice)) × (self.new ≡ self.old) }
        ensures after { (ds : List ℕ) (es : List Effect) (plan : DevicePlan) (past : List Event)
            → LiveIs ds es self.old.live → StandsAt plan past device self.old.live.devices
            → EasedFirst ds (latest now self.old.live) es self.old self.new
            (result ≡ Err (FingerRefused.Device ArgsRefused.Memory))
            (λ fs eased. TouchGoes ds (latest now self.old.live) fs plan past device
            (lifted (fingers_of self.old.live.fingers device) id) result eased.live self.new.live
            × (self.new.wanted ≡ eased.wanted)) }
        ensures reserved { (n : ℕ) (ds : List ℕ) (es : List Effect) (plan : DevicePlan) (past : List Event)
            → LiveIs ds es self.old.live → IsCalm es self.old → StandsAt plan past device self.old.live.devices
            → waits es self.old.live ≡ false → TouchGoesAtOnce n (latest now self.old.live) es plan past device
            (lifted (fingers_of self.old.live.fingers device) id) result
            (at_clock (latest now self.old.live) self.old).live self.new.live }
        ensures others { OthersStay device self.old.live self.new.live }
        ensures seats { SameHolders self.old.live self.new.live }
        ensures named { KeepsReported self.old.live.reported self.new.live.reported }
        ensures reports { (ds : List ℕ) (es : List Effect) → LiveIs ds es self.old.live
            → ReportsChoked self.old self.new }
    {
        if !self.live.has_device(device) {
            return Err(FingerRefused::Device(ArgsRefused::NoDevice));
        }
        match self.ease(now) {
            Ok(()) => self.live.touch_up(now, device, id),
            Err(_) => Err(FingerRefused::Device(ArgsRefused::Memory)),
        }
    }

    /// As [`Live::touch_cancel`], after choking and releasing clients.
    pub fn touch_cancel(
        &mut self,
        now: Moment,
        device: DeviceId,
        id: i32,
    ) -> Result<(), FingerRefused>
        ensures none { is_there self.old.live.devices device ≡ false
            → (result ≡ Err (FingerRefused.Device ArgsRefused.NoDevice)) × (self.new ≡ self.old) }
        ensures after { (ds : List ℕ) (es : List Effect) (plan : DevicePlan) (past : List Event)
            → LiveIs ds es self.old.live → StandsAt plan past device self.old.live.devices
            → EasedFirst ds (latest now self.old.live) es self.old self.new
            (result ≡ Err (FingerRefused.Device ArgsRefused.Memory))
            (λ fs eased. TouchGoes ds (latest now self.old.live) fs plan past device
            (cancelled (fingers_of self.old.live.fingers device) id) result eased.live self.new.live
            × (self.new.wanted ≡ eased.wanted)) }
        ensures reserved { (n : ℕ) (ds : List ℕ) (es : List Effect) (plan : DevicePlan) (past : List Event)
            → LiveIs ds es self.old.live → IsCalm es self.old → StandsAt plan past device self.old.live.devices
            → waits es self.old.live ≡ false → TouchGoesAtOnce n (latest now self.old.live) es plan past device
            (cancelled (fingers_of self.old.live.fingers device) id) result
            (at_clock (latest now self.old.live) self.old).live self.new.live }
        ensures others { OthersStay device self.old.live self.new.live }
        ensures seats { SameHolders self.old.live self.new.live }
        ensures named { KeepsReported self.old.live.reported self.new.live.reported }
        ensures reports { (ds : List ℕ) (es : List Effect) → LiveIs ds es self.old.live
            → ReportsChoked self.old self.new }
    {
        if !self.live.has_device(device) {
            return Err(FingerRefused::Device(ArgsRefused::NoDevice));
        }
        match self.ease(now) {
            Ok(()) => self.live.touch_cancel(now, device, id),
            Err(_) => Err(FingerRefused::Device(ArgsRefused::Memory)),
        }
    }

    /// As [`Live::touch_frame`], after choking and releasing clients.
    pub fn touch_frame(&mut self, now: Moment, device: DeviceId) -> Result<(), FingerRefused>
        ensures none { is_there self.old.live.devices device ≡ false
            → (result ≡ Err (FingerRefused.Device ArgsRefused.NoDevice)) × (self.new ≡ self.old) }
        ensures after { (ds : List ℕ) (es : List Effect) (plan : DevicePlan) (past : List Event)
            → LiveIs ds es self.old.live → StandsAt plan past device self.old.live.devices
            → EasedFirst ds (latest now self.old.live) es self.old self.new
            (result ≡ Err (FingerRefused.Device ArgsRefused.Memory))
            (λ fs eased. TouchGoes ds (latest now self.old.live) fs plan past device
            (framed (fingers_of self.old.live.fingers device)) result eased.live self.new.live
            × (self.new.wanted ≡ eased.wanted)) }
        ensures reserved { (n : ℕ) (ds : List ℕ) (es : List Effect) (plan : DevicePlan) (past : List Event)
            → LiveIs ds es self.old.live → IsCalm es self.old → StandsAt plan past device self.old.live.devices
            → waits es self.old.live ≡ false → TouchGoesAtOnce n (latest now self.old.live) es plan past device
            (framed (fingers_of self.old.live.fingers device)) result
            (at_clock (latest now self.old.live) self.old).live self.new.live }
        ensures others { OthersStay device self.old.live self.new.live }
        ensures seats { SameHolders self.old.live self.new.live }
        ensures named { KeepsReported self.old.live.reported self.new.live.reported }
        ensures reports { (ds : List ℕ) (es : List Effect) → LiveIs ds es self.old.live
            → ReportsChoked self.old self.new }
    {
        if !self.live.has_device(device) {
            return Err(FingerRefused::Device(ArgsRefused::NoDevice));
        }
        match self.ease(now) {
            Ok(()) => self.live.touch_frame(now, device),
            Err(_) => Err(FingerRefused::Device(ArgsRefused::Memory)),
        }
    }
}
