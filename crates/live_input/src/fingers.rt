//! Single fingers of a panel, by touch ids.
//!
//! libinput and wlroots report the fingers of a panel one by one, each by a touch id, and then a frame. Each such call
//! says what a panel of slots would say, as events, and the reader of the device cooks them, as it cooks any events:
//!
//! ```text
//! touch_down 7 at 540,1200      slot 0, tracking id 0, a finger, at 540,1200
//! touch_down -3 at 100,200      slot 1, tracking id 1, a finger, at 100,200
//! touch_frame                   SYN_REPORT: a DOWN and a POINTER_DOWN
//! touch_up 7                    slot 0, tracking id -1
//! touch_frame                   SYN_REPORT: a POINTER_UP
//! ```
ghost use Rattle.std.specs.Prelude.{◌≡◌, ℕ, false, List, [], ◌∷◌, Ok, Err, OnOk, OnErr, map};
ghost use Rattle.dispatch_history.specs.Effect.{Effect};
ghost use Rattle.device_reader.specs.Cooked.{DevicePlan};
ghost use Rattle.device_table.specs.Table.{StandsAt, is_there};
ghost use Rattle.raw_events.specs.declared.event.RawEvent.{RawEvent as Event};
ghost use Rattle.live_input.specs.Fingers.{OthersStay, SameHolders, Takes, TakesPart, TouchGoes, TouchGoesAtOnce, cancelled, down, framed, lifted, moved};
ghost use Rattle.live_input.specs.Slots.{fingers_of};
ghost use Rattle.live_input.specs.Strokes.{said};
ghost use Rattle.live_input.specs.FingerLaws.{FittingLaw, PacketLaw, QuietLaw, RefusedLaw};
ghost use Rattle.live_input.specs.Settling.{waits};
ghost use Rattle.live_input.specs.Standing.{LiveIs};
ghost use Rattle.live_input.specs.State.{latest};

use crate::live::Live;
use crate::refused::{ArgsRefused, FingerRefused};
use crate::slots::{Fingers, fingers_of, set_fingers};
use crate::strokes::{
    Stroke, cancel_strokes, down_strokes, motion_strokes, report, said, up_strokes,
};
use input_types::{DeviceId, Moment};
use std::alloc::AllocError;

impl Live {
    /// A finger goes down on a panel, at a position in the units of the panel. Its touch id may be any number that no
    /// other finger on the panel has. What the fingers do is dispatched by the next `touch_frame`.
    pub fn touch_down(
        &mut self,
        now: Moment,
        device: DeviceId,
        id: i32,
        x: i32,
        y: i32,
    ) -> Result<(), FingerRefused>
        ensures none { is_there self.old.devices device ≡ false
            → (result ≡ Err (FingerRefused.Device ArgsRefused.NoDevice)) × (self.new ≡ self.old) }
        ensures after { (ds : List ℕ) (es : List Effect) (plan : DevicePlan) (past : List Event) → LiveIs ds es self.old
            → StandsAt plan past device self.old.devices → TouchGoes ds (latest now self.old) es plan past device
            (down (fingers_of self.old.fingers device) id x y) result self.old self.new }
        ensures reserved { (n : ℕ) (ds : List ℕ) (es : List Effect) (plan : DevicePlan) (past : List Event)
            → LiveIs ds es self.old → StandsAt plan past device self.old.devices → waits es self.old ≡ false
            → TouchGoesAtOnce n (latest now self.old) es plan past device
            (down (fingers_of self.old.fingers device) id x y) result self.old self.new }
        ensures others { OthersStay device self.old self.new }
        ensures seats { SameHolders self.old self.new }
        ensures named { self.new.reported ≡ self.old.reported }
    {
        if !self.devices.is_there(device) {
            return Err(FingerRefused::Device(ArgsRefused::NoDevice));
        }
        let fingers = fingers_of(&self.fingers, device);
        match fingers.slot_for(id) {
            Ok(slot) => self.touch(
                now,
                device,
                &down_strokes(slot, fingers.count, x, y),
                fingers.with_down(slot, id),
            ),
            Err(refused) => Err(refused),
        }
    }

    /// A finger that is down on a panel moves to a position in the units of the panel.
    pub fn touch_motion(
        &mut self,
        now: Moment,
        device: DeviceId,
        id: i32,
        x: i32,
        y: i32,
    ) -> Result<(), FingerRefused>
        ensures none { is_there self.old.devices device ≡ false
            → (result ≡ Err (FingerRefused.Device ArgsRefused.NoDevice)) × (self.new ≡ self.old) }
        ensures after { (ds : List ℕ) (es : List Effect) (plan : DevicePlan) (past : List Event) → LiveIs ds es self.old
            → StandsAt plan past device self.old.devices → TouchGoes ds (latest now self.old) es plan past device
            (moved (fingers_of self.old.fingers device) id x y) result self.old self.new }
        ensures reserved { (n : ℕ) (ds : List ℕ) (es : List Effect) (plan : DevicePlan) (past : List Event)
            → LiveIs ds es self.old → StandsAt plan past device self.old.devices → waits es self.old ≡ false
            → TouchGoesAtOnce n (latest now self.old) es plan past device
            (moved (fingers_of self.old.fingers device) id x y) result self.old self.new }
        ensures others { OthersStay device self.old self.new }
        ensures seats { SameHolders self.old self.new }
        ensures named { self.new.reported ≡ self.old.reported }
    {
        if !self.devices.is_there(device) {
            return Err(FingerRefused::Device(ArgsRefused::NoDevice));
        }
        let fingers = fingers_of(&self.fingers, device);
        match fingers.slot_of(id) {
            Ok(slot) => self.touch(now, device, &motion_strokes(slot, x, y), fingers),
            Err(refused) => Err(refused),
        }
    }

    /// A finger that is down on a panel goes up.
    pub fn touch_up(&mut self, now: Moment, device: DeviceId, id: i32) -> Result<(), FingerRefused>
        ensures none { is_there self.old.devices device ≡ false
            → (result ≡ Err (FingerRefused.Device ArgsRefused.NoDevice)) × (self.new ≡ self.old) }
        ensures after { (ds : List ℕ) (es : List Effect) (plan : DevicePlan) (past : List Event) → LiveIs ds es self.old
            → StandsAt plan past device self.old.devices → TouchGoes ds (latest now self.old) es plan past device
            (lifted (fingers_of self.old.fingers device) id) result self.old self.new }
        ensures reserved { (n : ℕ) (ds : List ℕ) (es : List Effect) (plan : DevicePlan) (past : List Event)
            → LiveIs ds es self.old → StandsAt plan past device self.old.devices → waits es self.old ≡ false
            → TouchGoesAtOnce n (latest now self.old) es plan past device
            (lifted (fingers_of self.old.fingers device) id) result self.old self.new }
        ensures others { OthersStay device self.old self.new }
        ensures seats { SameHolders self.old self.new }
        ensures named { self.new.reported ≡ self.old.reported }
    {
        if !self.devices.is_there(device) {
            return Err(FingerRefused::Device(ArgsRefused::NoDevice));
        }
        let fingers = fingers_of(&self.fingers, device);
        match fingers.slot_of(id) {
            Ok(slot) => self.touch(
                now,
                device,
                &up_strokes(slot),
                fingers.with_slot(slot, None),
            ),
            Err(refused) => Err(refused),
        }
    }

    /// A finger that is down on a panel is cancelled, as a palm. The packet ends with it: what other fingers did since
    /// the last frame is dispatched too.
    pub fn touch_cancel(
        &mut self,
        now: Moment,
        device: DeviceId,
        id: i32,
    ) -> Result<(), FingerRefused>
        ensures none { is_there self.old.devices device ≡ false
            → (result ≡ Err (FingerRefused.Device ArgsRefused.NoDevice)) × (self.new ≡ self.old) }
        ensures after { (ds : List ℕ) (es : List Effect) (plan : DevicePlan) (past : List Event) → LiveIs ds es self.old
            → StandsAt plan past device self.old.devices → TouchGoes ds (latest now self.old) es plan past device
            (cancelled (fingers_of self.old.fingers device) id) result self.old self.new }
        ensures reserved { (n : ℕ) (ds : List ℕ) (es : List Effect) (plan : DevicePlan) (past : List Event)
            → LiveIs ds es self.old → StandsAt plan past device self.old.devices → waits es self.old ≡ false
            → TouchGoesAtOnce n (latest now self.old) es plan past device
            (cancelled (fingers_of self.old.fingers device) id) result self.old self.new }
        ensures others { OthersStay device self.old self.new }
        ensures seats { SameHolders self.old self.new }
        ensures named { self.new.reported ≡ self.old.reported }
    {
        if !self.devices.is_there(device) {
            return Err(FingerRefused::Device(ArgsRefused::NoDevice));
        }
        let fingers = fingers_of(&self.fingers, device);
        match fingers.slot_of(id) {
            Ok(slot) => self.touch(
                now,
                device,
                &cancel_strokes(slot),
                fingers.with_slot(slot, None),
            ),
            Err(refused) => Err(refused),
        }
    }

    /// The packet of what the fingers of a panel did ends, and is dispatched.
    pub fn touch_frame(&mut self, now: Moment, device: DeviceId) -> Result<(), FingerRefused>
        ensures none { is_there self.old.devices device ≡ false
            → (result ≡ Err (FingerRefused.Device ArgsRefused.NoDevice)) × (self.new ≡ self.old) }
        ensures after { (ds : List ℕ) (es : List Effect) (plan : DevicePlan) (past : List Event) → LiveIs ds es self.old
            → StandsAt plan past device self.old.devices → TouchGoes ds (latest now self.old) es plan past device
            (framed (fingers_of self.old.fingers device)) result self.old self.new }
        ensures reserved { (n : ℕ) (ds : List ℕ) (es : List Effect) (plan : DevicePlan) (past : List Event)
            → LiveIs ds es self.old → StandsAt plan past device self.old.devices → waits es self.old ≡ false
            → TouchGoesAtOnce n (latest now self.old) es plan past device
            (framed (fingers_of self.old.fingers device)) result self.old self.new }
        ensures others { OthersStay device self.old self.new }
        ensures seats { SameHolders self.old self.new }
        ensures named { self.new.reported ≡ self.old.reported }
    {
        if !self.devices.is_there(device) {
            return Err(FingerRefused::Device(ArgsRefused::NoDevice));
        }
        let fingers = fingers_of(&self.fingers, device);
        self.touch(now, device, &[report()], fingers)
    }

    /// Says this of a device that is plugged in, and dispatches what it gives. These fingers are down on it then.
    fn touch(
        &mut self,
        now: Moment,
        device: DeviceId,
        strokes: &[Stroke],
        after: Fingers,
    ) -> Result<(), FingerRefused>
        ensures after { (ds : List ℕ) (es : List Effect) (plan : DevicePlan) (past : List Event) → LiveIs ds es self.old
            → StandsAt plan past device self.old.devices → TouchGoes ds (latest now self.old) es plan past device
            (Ok (record { strokes = strokes.now; after = after })) result self.old self.new }
        ensures reserved { (n : ℕ) (ds : List ℕ) (es : List Effect) (plan : DevicePlan) (past : List Event)
            → LiveIs ds es self.old → StandsAt plan past device self.old.devices → waits es self.old ≡ false
            → TouchGoesAtOnce n (latest now self.old) es plan past device
            (Ok (record { strokes = strokes.now; after = after })) result self.old self.new }
        ensures others { OthersStay device self.old self.new }
        ensures seats { SameHolders self.old self.new }
        ensures named { self.new.reported ≡ self.old.reported }
    {
        let now = now.later(self.clock);
        match self.take_all(now, device, strokes) {
            Ok(()) => {
                self.clock = now;
                set_fingers(&mut self.fingers, device, after);
                match self.deliver(now) {
                    Ok(()) => Ok(()),
                    Err(refused) => Err(FingerRefused::Device(refused)),
                }
            }
            Err(_) => Err(FingerRefused::Device(ArgsRefused::Memory)),
        }
    }

    /// The reader of a device takes this, one event after another. What it gives waits to be handed in.
    fn take_all(
        &mut self,
        now: Moment,
        device: DeviceId,
        strokes: &[Stroke],
    ) -> Result<(), AllocError>
        ensures ok { (plan : DevicePlan) (past : List Event) → StandsAt plan past device self.old.devices
            → OnOk result (Takes plan past (map (said device now) strokes.now) device self.old self.new) }
        ensures err { (plan : DevicePlan) (past : List Event) → StandsAt plan past device self.old.devices
            → OnErr result (TakesPart plan past (map (said device now) strokes.now) device self.old self.new) }
        ensures others { OthersStay device self.old self.new }
        ensures rest { self.new ≡ record self.old { devices = self.new.devices; pending = self.new.pending } }
    {
        for stroke in strokes {
            self.take(now, device, stroke)?;
        }
        Ok(())
    }

    /// The reader of a device takes an event. What it gives waits to be handed in.
    fn take(&mut self, now: Moment, device: DeviceId, stroke: &Stroke) -> Result<(), AllocError>
        ensures ok { (plan : DevicePlan) (past : List Event) → StandsAt plan past device self.old.devices
            → OnOk result (Takes plan past (said device now stroke.now ∷ []) device self.old self.new) }
        ensures err { OnErr result (self.new ≡ self.old) }
        ensures others { OthersStay device self.old self.new }
        ensures rest { self.new ≡ record self.old { devices = self.new.devices; pending = self.new.pending } }
    {
        self.devices
            .take_into(said(now, device, stroke), &mut self.pending)
    }
}

/// What fingers do gives nothing until the packet ends, and then what the reader makes of the packet, which the history
/// accepts. If memory runs out, nothing is given. The function does nothing.
pub fn laws()
    ensures quiet { QuietLaw }
    ensures packet { PacketLaw }
    ensures refused { RefusedLaw }
    ensures fitting { FittingLaw }
{}
