//! One device's reader.
ghost use Rattle.std.specs.Prelude.{◌≡◌, ◌≤◌, List, [], ◌∷◌, ◌++◌, IfOk, OnOk, OnErr};
ghost use Rattle.raw_events.specs.declared.event.RawEvent.{RawEvent as Event};
ghost use Rattle.device_reader.specs.Cooked.{DevicePlan, HeldStandsFor, Keys as KeysDevice, KeysPlan, KindStandsFor};
ghost use Rattle.device_reader.specs.Cooked.{DeviceStandsFor, Touches, args_of, key_args, kind_args};
ghost use Rattle.device_reader.specs.Rule.{KeepsRule};

use crate::packets::is_drop;
use crate::slot_accumulator::is_report;
use crate::touch::Touch;
use crate::touch_mapper::Cook;
use input_types::{Args, DeviceId};
use key_layout::Layout;
use key_mapper::Keys;
use raw_events::RawEvent;
use raw_events::codes::EV_KEY;
use std::alloc::{AllocError, Global};
use std::marker::Model;

/// What is known of a device.
#[derive(Drop)]
enum Kind {
    Touch(Touch),
    Keys(Keys),
}

/// The reader of one device, with touch or with keys.
#[derive(Drop)]
pub struct DeviceReader {
    device: DeviceId,
    void: bool,
    kind: Kind,
}

impl Model for DeviceReader {
    ghost use Rattle.device_reader.specs.Reading.{Reading};

    ghost Value = { Reading };

    ghost view = { λ r. record { device = r.device; void = r.void; kind = r.kind } };
}

impl DeviceReader {
    /// The reader of a touch device with this many slots, whose positions become pixels by `cook`.
    ///
    /// Whatever the device sends, everything that it gives keeps the rule for devices, and the ids that are down by
    /// that rule are those of its last packet since the last SYN_DROPPED.
    pub fn touch(device: DeviceId, slots: u8, cook: Cook) -> DeviceReader
        requires { (1 ≤ slots) × (slots ≤ 16) }
        ensures state { DeviceStandsFor (Touches (record { device = device; slots = slots; cook = cook })) [] result }
        ensures device { result.device ≡ device }
        ensures rule { (past : List Event)
            → KeepsRule (Touches (record { device = device; slots = slots; cook = cook })) past }
    {
        DeviceReader {
            device,
            void: false,
            kind: Kind::Touch(Touch::new(device, slots, cook)),
        }
    }

    /// The reader of a device with keys, whose layout says which key code each scan code has.
    ///
    /// Whatever the device sends, all that it gives keeps the rule for devices: a key goes down only when it is up, and
    /// up only when it is down. The keys that are down by that rule are those whose last EV_KEY of value 0 or 1 since
    /// the last SYN_DROPPED has value 1.
    pub fn keys(alloc: Global, device: DeviceId, layout: Layout) -> DeviceReader
        ensures state { DeviceStandsFor (KeysDevice (record { device = device; layout = layout })) [] result }
        ensures device { result.device ≡ device }
        ensures rule { (past : List Event) → KeepsRule (KeysDevice (record { device = device; layout = layout })) past }
    {
        DeviceReader {
            device,
            void: false,
            kind: Kind::Keys(Keys::new(alloc, device, layout)),
        }
    }

    /// Takes the next event of the device, and adds what it gives to `args`.
    ///
    /// A packet of a touch device ends at a SYN_REPORT and gives its motions. A device with keys gives a key at the
    /// key's own event, and waits for no SYN_REPORT. At a SYN_DROPPED the device begins anew, which is a `Reset`; the
    /// events after it, up to and including the next SYN_REPORT, are skipped, as the kernel's document on event codes
    /// asks. Keys of a touch device, touch of a device with keys and other events are skipped too. Out of memory leaves
    /// the reader and `args` as they were.
    ///
    /// Only the end of a packet, a key and a SYN_DROPPED request memory. If `args` has room for the motions of a
    /// packet, at most `Gestures::MOST`, they request none, except that of a key that goes down.
    #[inline(always)]
    pub fn take(&mut self, event: &RawEvent, args: &mut Vec<Args>) -> Result<(), AllocError>
        requires { event.now.device ≡ self.old.device }
        ensures ok { (plan : DevicePlan) (past : List Event) → DeviceStandsFor plan past self.old
            → OnOk result (args.new.items ≡ args.old.items ++ args_of plan past event.now) }
        ensures after { (plan : DevicePlan) (past : List Event) → DeviceStandsFor plan past self.old
            → OnOk result (DeviceStandsFor plan (event.now ∷ past) self.new) }
        ensures device { self.new.device ≡ self.old.device }
        ensures err { OnErr result (self.new ≡ self.old) }
        ensures given { OnErr result (args.new.items ≡ args.old.items) }
    {
        if self.void {
            self.void = !is_report(event);
            return Ok(());
        }
        if is_drop(event) {
            args.push(Args::Reset(self.device))?;
            reset(&mut self.kind);
            self.void = true;
            return Ok(());
        }
        take_by_kind(&mut self.kind, event, args)
    }
}

/// Takes an event that is neither void nor a drop, and adds what it gives.
#[inline(always)]
fn take_by_kind(kind: &mut Kind, event: &RawEvent, args: &mut Vec<Args>) -> Result<(), AllocError>
    ensures ok { (plan : DevicePlan) (past : List Event) → KindStandsFor plan past kind.old
        → OnOk result (args.new.items ≡ args.old.items ++ kind_args plan past event.now) }
    ensures after { (plan : DevicePlan) (past : List Event) → KindStandsFor plan past kind.old
        → OnOk result (KindStandsFor plan (event.now ∷ past) kind.new) }
    ensures err { OnErr result (kind.new ≡ kind.old) }
    ensures given { OnErr result (args.new.items ≡ args.old.items) }
{
    match kind {
        Kind::Touch(touch) => touch.take(event, args),
        Kind::Keys(keys) => take_key(keys, event, args),
    }
}

/// Takes an event of a device with keys, and adds the key that it moves.
#[inline(always)]
fn take_key(keys: &mut Keys, event: &RawEvent, args: &mut Vec<Args>) -> Result<(), AllocError>
    ensures ok { (plan : KeysPlan) (past : List Event) → HeldStandsFor plan past keys.old
        → OnOk result (args.new.items ≡ args.old.items ++ key_args plan past event.now) }
    ensures after { (plan : KeysPlan) (past : List Event) → HeldStandsFor plan past keys.old
        → OnOk result (HeldStandsFor plan (event.now ∷ past) keys.new) }
    ensures err { OnErr result (keys.new ≡ keys.old) }
    ensures given { OnErr result (args.new.items ≡ args.old.items) }
{
    if event.kind == EV_KEY {
        return move_key(keys, *event, args);
    }
    Ok(())
}

/// Takes an EV_KEY event, and adds the key that it moves.
#[inline(never)]
fn move_key(keys: &mut Keys, event: RawEvent, args: &mut Vec<Args>) -> Result<(), AllocError>
    requires { event.kind ≡ 1 }
    ensures ok { (plan : KeysPlan) (past : List Event) → HeldStandsFor plan past keys.old
        → OnOk result (args.new.items ≡ args.old.items ++ key_args plan past event) }
    ensures after { (plan : KeysPlan) (past : List Event) → HeldStandsFor plan past keys.old
        → OnOk result (HeldStandsFor plan (event ∷ past) keys.new) }
    ensures err { OnErr result (keys.new ≡ keys.old) }
    ensures given { OnErr result (args.new.items ≡ args.old.items) }
{
    // With room for a key nothing fails after the keys changed.
    args.reserve(1)?;
    match keys.take(event.code, event.value)? {
        None => Ok(()),
        Some(key) => {
            args.push(Args::Key(key))?;
            Ok(())
        }
    }
}

/// Forgets all that is down.
#[inline(never)]
fn reset(kind: &mut Kind)
    ensures { (plan : DevicePlan) (past : List Event) → KindStandsFor plan past kind.old
        → KindStandsFor plan [] kind.new }
{
    match kind {
        Kind::Touch(touch) => touch.reset(),
        Kind::Keys(keys) => keys.reset(),
    }
}
