//! What is still down in a window's stream.
ghost use Rattle.std.specs.Prelude.{◌≡◌, ◌+◌, ◌≤◌, ◌<◌, ℕ, not, [], length, IfOk, OnOk, OnErr, IsOk, vec_len, vec_capacity};
ghost use Rattle.bits32.specs.Set.{is_in};
ghost use Rattle.routing_rules.specs.Outgoing.{listing, plain};
ghost use Rattle.input_types.specs.declared.motion.MotionAction.TheVariants.{Move};
ghost use Rattle.input_types.specs.declared.message.Body.TheVariants.{Motion as MotionBody, Key as KeyBody};
ghost use Rattle.dispatcher.specs.CancelSynthesis.Cancelling.{still_sent};
ghost use Rattle.dispatcher.specs.CancelSynthesis.Tracked.{Tracks, pointers_of, pointers_in, pointers_then};
ghost use Rattle.dispatcher.specs.CancelSynthesis.Tracked.{keys_after, with_spare};
ghost use Rattle.dispatcher.specs.CancelSynthesis.Ends.{pointers_cancelled, keys_cancelled, of_device, all_cancelled};

use crate::cancel_synthesis::cancels::Cancels;
use crate::cancel_synthesis::held_keys::{
    cancel_device_keys_into, cancel_each_key, cancel_keys_into, forget, keep,
};
use crate::cancel_synthesis::pointers::{cancel_devices, pointers_after};
use crate::pointers_by_id::PointersById;
use bits32::Bits32;
use input_types::{Body, DeviceId, KeyMsg, Motion, MotionAction, Pointers};
use split_motion::{part, part_but};
use std::alloc::{AllocError, Global};
use std::marker::Model;

/// The pointers and keys that are down in one window, from what it was sent. Positions are display pixels.
#[derive(Drop)]
pub struct InputState {
    /// The pointers of each device at their last positions, starting with device 1.
    pointers: [Pointers; 8],
    /// The last message of each key that is down, by device and scan code.
    keys: Vec<KeyMsg>,
    /// How many more messages there is room for.
    spare: u32,
}

impl Model for InputState {
    ghost use Rattle.std.specs.Prelude.{vec_len, vec_capacity};
    ghost use Rattle.dispatcher.specs.CancelSynthesis.Tracked.{Tracked, HasRoom};

    ghost Value = { Tracked };

    ghost view = { λ s. record { pointers = s.pointers; keys = s.keys.items; spare = s.spare } };

    ghost invariant = { λ s. HasRoom (vec_len s.keys) (vec_capacity s.keys) s.spare };
}

impl InputState {
    /// A window that was sent nothing.
    pub fn new(alloc: Global) -> InputState
        ensures pointers { (d : ℕ) → pointers_of result d ≡ [] }
        ensures keys { result.keys ≡ [] }
        ensures spare { result.spare ≡ 0 }
    {
        InputState {
            pointers: [Pointers::empty(); 8],
            keys: Vec::new(alloc),
            spare: 0,
        }
    }

    /// The pointers of a device that are down, at their last positions.
    pub fn pointers(&self, device: DeviceId) -> &Pointers
        ensures { result.now ≡ pointers_of self.now device }
    {
        pointers_at(&self.pointers, device)
    }

    /// The last message of each key that is down, by device and scan code.
    pub fn keys(&self) -> &[KeyMsg]
        ensures { result.now ≡ self.now.keys }
    {
        &self.keys
    }

    /// Makes room, so that the next `n` calls of `track` cannot run out of memory. If memory runs out, nothing changes.
    pub fn reserve(&mut self, n: u32) -> Result<(), AllocError>
        ensures ok { OnOk result (self.new ≡ with_spare n self.old) }
        ensures err { OnErr result (self.new ≡ self.old) }
        ensures reserved { n ≤ self.old.spare → IsOk result }
    {
        if n > self.spare {
            self.keys.reserve(n as usize)?;
            self.spare = n;
        }
        Ok(())
    }

    /// How many more messages there is room for.
    pub fn spare(&self) -> u32
        ensures { result ≡ self.now.spare }
    {
        self.spare
    }

    /// Makes room like `reserve`, and also counts any room beyond that. If memory runs out, only that count changes.
    pub fn make_ready(&mut self, n: u32) -> Result<(), AllocError>
        ensures ok { OnOk result (n ≤ self.new.spare) }
        ensures same { self.new ≡ record self.old { spare = self.new.spare } }
        ensures more { self.old.spare ≤ self.new.spare }
        ensures reserved { n ≤ self.old.spare → IsOk result }
    {
        if n > self.spare {
            self.keys.reserve(n as usize)?;
            let free = self.keys.capacity() - self.keys.len();
            self.spare = free.min(u32::MAX as usize) as u32;
        }
        Ok(())
    }

    /// Tracks one more message to the window. If memory runs out, nothing changes.
    pub fn track(&mut self, body: &Body) -> Result<(), AllocError>
        ensures ok { OnOk result (Tracks self.old self.new body.now) }
        ensures err { OnErr result (self.new ≡ self.old) }
        ensures reserved { 1 ≤ self.old.spare → IsOk result }
    {
        match body {
            Body::Motion(motion) => self.track_motion(motion),
            Body::Key(message) => {
                set_key(&mut self.keys, message)?;
                self.spare = self.spare.saturating_sub(1);
            }
            Body::Focus(_) => self.spare = self.spare.saturating_sub(1),
        }
        Ok(())
    }

    /// Tracks one more motion to the window. Allocates nothing.
    pub fn track_motion(&mut self, motion: &Motion)
        ensures { Tracks self.old self.new (MotionBody motion.now) }
    {
        set_pointers(&mut self.pointers, motion);
        self.spare = self.spare.saturating_sub(1);
    }

    /// Tracks a move of the pointers of a device in a list that have these ids. Allocates nothing.
    pub fn track_moves(&mut self, device: DeviceId, pointers: &PointersById, ids: Bits32)
        ensures { Tracks self.old self.new (MotionBody (plain device Move (listing (λ i. is_in i ids) pointers.now))) }
    {
        set_moved(&mut self.pointers, device, pointers, ids);
        self.spare = self.spare.saturating_sub(1);
    }

    /// Tracks one more key message to the window, for which room was reserved. Allocates nothing.
    pub fn track_key(&mut self, message: &KeyMsg)
        requires { 1 ≤ self.old.spare }
        ensures { Tracks self.old self.new (KeyBody message.now) }
    {
        set_key_reserved(&mut self.keys, message);
        self.spare -= 1;
    }

    /// What the window is sent when pointers of a device with these ids are taken from it, one motion after the
    /// other. Allocates nothing.
    pub fn cancels(&self, device: DeviceId, lost: Bits32) -> Cancels
        ensures { still_sent result ≡ pointers_cancelled device (λ i. is_in i lost) (pointers_of self.now device) }
    {
        let had = pointers_at(&self.pointers, device);
        Cancels::new(device, had, &part_but(had, lost), &part(had, lost))
    }

    /// The same, for its pointers of a device whose ids are not these.
    pub fn cancels_but(&self, device: DeviceId, kept: Bits32) -> Cancels
        ensures { still_sent result
            ≡ pointers_cancelled device (λ i. not (is_in i kept)) (pointers_of self.now device) }
    {
        let had = pointers_at(&self.pointers, device);
        Cancels::new(device, had, &part(had, kept), &part_but(had, kept))
    }

    /// What the window is sent when pointers of a device with these ids are taken from it: nothing if it has none of
    /// them, one Cancel if it keeps none, and otherwise a cancelled up for each.
    pub fn cancel_pointers(&self, device: DeviceId, lost: Bits32) -> Result<Vec<Motion>, AllocError>
        ensures { IfOk result (λ v.
            v.items ≡ pointers_cancelled device (λ i. is_in i lost) (pointers_of self.now device)) }
    {
        let mut outgoing = Vec::new(*self.keys.allocator());
        let mut cancels = self.cancels(device, lost);
        while let Some(cancel) = cancels.next() {
            outgoing.push(cancel)?;
        }
        Ok(outgoing)
    }

    /// Fills a list with what the window is sent when its keys are taken from it. It allocates nothing if the list
    /// has room for as many keys as are down.
    pub fn cancel_keys_into(&self, out: &mut Vec<KeyMsg>) -> Result<(), AllocError>
        ensures ok { OnOk result (out.new.items ≡ keys_cancelled self.now.keys) }
        ensures capacity { vec_capacity out.old ≤ vec_capacity out.new }
        ensures reserved { length self.now.keys ≤ vec_capacity out.old → IsOk result }
    {
        cancel_keys_into(out, &self.keys)
    }

    /// The same, for its keys of one device.
    pub fn cancel_device_keys_into(
        &self,
        device: DeviceId,
        out: &mut Vec<KeyMsg>,
    ) -> Result<(), AllocError>
        ensures ok { OnOk result (out.new.items ≡ keys_cancelled (of_device device self.now.keys)) }
        ensures capacity { vec_capacity out.old ≤ vec_capacity out.new }
        ensures reserved { length self.now.keys ≤ vec_capacity out.old → IsOk result }
    {
        cancel_device_keys_into(out, &self.keys, device)
    }

    /// What the window is sent when everything ends: device by device its pointers, and then its keys.
    pub fn cancel_all(&self) -> Result<Vec<Body>, AllocError>
        ensures { IfOk result (λ v. v.items ≡ all_cancelled self.now) }
    {
        let mut outgoing = Vec::new(*self.keys.allocator());
        cancel_devices(&mut outgoing, &self.pointers)?;
        cancel_each_key(&mut outgoing, &self.keys)?;
        Ok(outgoing)
    }
}

/// The pointers of a device.
fn pointers_at(pointers: &[Pointers; 8], device: DeviceId) -> &Pointers
    ensures { result.now ≡ pointers_in pointers.now device }
{
    &pointers[usize::from(device.get()) - 1]
}

/// Sets the pointers of the device of a motion.
fn set_pointers(pointers: &mut [Pointers; 8], motion: &Motion)
    ensures { (d : ℕ) →
        pointers_in pointers.new d ≡ pointers_then (MotionBody motion.now) d (pointers_in pointers.old d) }
{
    let place = usize::from(motion.device.get()) - 1;
    match motion.action {
        MotionAction::Down | MotionAction::PointerDown | MotionAction::Move => {
            pointers[place] = motion.pointers;
        }
        MotionAction::Outside => {}
        MotionAction::PointerUp | MotionAction::Up | MotionAction::Cancel => {
            pointers[place] = pointers_after(motion, &pointers[place]);
        }
    }
}

/// Sets the pointers of a device to those of a list that have these ids.
fn set_moved(pointers: &mut [Pointers; 8], device: DeviceId, listed: &PointersById, ids: Bits32)
    ensures { (d : ℕ) → pointers_in pointers.new d
        ≡ pointers_then (MotionBody (plain device Move (listing (λ i. is_in i ids) listed.now))) d
        (pointers_in pointers.old d) }
{
    listed.part_into(ids, &mut pointers[usize::from(device.get()) - 1]);
}

/// Keeps the message of a key that is down, and drops that of one that is up.
fn set_key(keys: &mut Vec<KeyMsg>, message: &KeyMsg) -> Result<(), AllocError>
    ensures items { OnOk result (keys.new.items ≡ keys_after message.now keys.old.items) }
    ensures len { OnOk result (vec_len keys.new ≤ vec_len keys.old + 1) }
    ensures capacity { vec_capacity keys.old ≤ vec_capacity keys.new }
    ensures err { OnErr result (keys.new.items ≡ keys.old.items) }
    ensures err_len { OnErr result (vec_len keys.new ≡ vec_len keys.old) }
    ensures reserved { vec_len keys.old < vec_capacity keys.old → IsOk result }
{
    if message.key.down {
        return keep(keys, message);
    }
    forget(keys, message);
    Ok(())
}

/// The same, with room in the list for one more key. Allocates nothing.
fn set_key_reserved(keys: &mut Vec<KeyMsg>, message: &KeyMsg)
    requires { vec_len keys.old < vec_capacity keys.old }
    ensures items { keys.new.items ≡ keys_after message.now keys.old.items }
    ensures len { vec_len keys.new ≤ vec_len keys.old + 1 }
    ensures capacity { vec_capacity keys.old ≤ vec_capacity keys.new }
{
    match set_key(keys, message) {
        Ok(()) => {}
        Err(AllocError) => unreachable!(),
    }
}
