//! The verifier of one stream.
ghost use Rattle.std.specs.Prelude.{◌≡◌, ◌<◌, ◌-◌, IsTrue, List, [], ◌∷◌, false, true, not, is_some, IfOk, OnOk, OnErr};
ghost use Rattle.std.specs.Prelude.{ℕ};
ghost use Rattle.gesture_verifier.specs.Told.{is_device};

use crate::fault::{Fault, StepError};
use crate::held::{HeldKey, held_keys};
use crate::reason::{Reason, first_fitting, key_reason, motion_reason};
use crate::repeats::{due, keep, next_repeat, place};
use bits32::Bits32;
use input_types::{Body, DeviceId, KeyMsg, Message, Motion};
use pointers_down::{next_sent, nothing};
use std::alloc::{AllocError, Global};
use std::collections::BTreeMap;
use std::marker::Model;

/// What a window knows from the messages that it was sent, in the order in which they were accepted.
#[derive(Drop)]
pub struct Verifier {
    /// The ids that are down on each device, starting with device 1.
    down: [Bits32; 8],
    /// The next repeat number of each key that is down, by the key's place.
    repeats: BTreeMap<u32, u64>,
    focus: bool,
    accepted: u64,
}

impl Model for Verifier {
    ghost use Rattle.std.specs.Prelude.{◌≡◌, length, true};
    ghost use Rattle.gesture_verifier.specs.Told.{Told, are_places};

    ghost Value = { Told };

    ghost view = { λ v. record { sets = v.down; repeats = v.repeats.entries; focus = v.focus; accepted = v.accepted } };

    ghost invariant = { λ v. (length v.down ≡ 8) × (are_places v.repeats.entries ≡ true) };
}

impl Verifier {
    ghost use Rattle.input_types.specs.StreamRule.{unsent, after_body, is_well_formed};
    ghost use Rattle.bits32.specs.Set.{members};
    ghost use Rattle.gesture_verifier.specs.Told.{state_of, one_more, VerifierStandsFor};
    ghost use Rattle.gesture_verifier.specs.Faults.{Accepts, IsFault, Takes, is_key, ids_of_body, due_of_body};
    ghost use Rattle.gesture_verifier.specs.Held.{are_rising, is_held};
    ghost use Rattle.gesture_verifier.specs.Reasons.{reason_of, is_spelled};

    /// A verifier of a stream without messages so far.
    pub fn new(alloc: Global) -> Verifier
        ensures unsent { state_of result ≡ unsent }
        ensures stands { VerifierStandsFor [] result }
    {
        Verifier {
            down: [Bits32::empty(); 8],
            repeats: BTreeMap::new(alloc),
            focus: false,
            accepted: 0,
        }
    }

    /// Accepts the next message of the stream, or reports why it is not allowed.
    ///
    /// Returns `Fault` exactly if the stream with this message is not well-formed; it says what the window knew.
    /// Returns `Memory` only for a key message. An error leaves the verifier as it was.
    pub fn step(&mut self, message: &Message) -> Result<(), StepError>
        ensures ok { OnOk result (after_body (state_of self.old) message.now.body ≡ Some (state_of self.new)) }
        ensures stands { (past : List Message) → VerifierStandsFor past self.old
            → OnOk result (VerifierStandsFor (message.now ∷ past) self.new) }
        ensures counted { OnOk result (self.new.accepted ≡ one_more self.old.accepted) }
        ensures fault { (fault : Fault) → result ≡ Err (StepError.Fault fault) → IsFault self.old message.now fault }
        ensures breaks { (past : List Message) → VerifierStandsFor past self.old → (fault : Fault)
            → result ≡ Err (StepError.Fault fault) → is_well_formed (message.now ∷ past) ≡ false }
        ensures memory { result ≡ Err StepError.Memory → is_key message.now.body ≡ true }
        ensures err { OnErr result (self.new ≡ self.old) }
    {
        if self.accept(message)? {
            Ok(())
        } else {
            Err(StepError::Fault(self.fault(message)))
        }
    }

    /// Accepts the next message of the stream as `step` does, and returns whether it is allowed, without a reason.
    ///
    /// Only a key message can run out of memory. A message that is not allowed leaves the verifier as it was, and so
    /// does running out of memory.
    pub fn accept(&mut self, message: &Message) -> Result<bool, AllocError>
        ensures accepts { Accepts result self.old self.new message.now }
        ensures stands { (past : List Message) → VerifierStandsFor past self.old → result ≡ Ok true
            → VerifierStandsFor (message.now ∷ past) self.new }
        ensures well_formed { (past : List Message) → VerifierStandsFor past self.old
            → IfOk result (λ may. is_well_formed (message.now ∷ past) ≡ may) }
    {
        if !self.take(&message.body)? {
            return Ok(false);
        }
        self.accepted = self.accepted.saturating_add(1);
        Ok(true)
    }

    /// Why a message is not allowed now; None if it is. A message that no line of a stream file can spell, such as one
    /// with other flags, may be refused without a reason.
    pub fn reason(&self, body: &Body) -> Option<Reason>
        ensures value { result ≡ reason_of (state_of self.now) body.now }
        ensures exact { is_spelled body.now ≡ true
            → is_some result ≡ not (is_some (after_body (state_of self.now) body.now)) }
    {
        match body {
            Body::Motion(motion) => motion_reason(self.down[row(motion.device)], motion),
            Body::Key(message) => key_reason(due(&self.repeats, place(&message.key)), message),
            Body::Focus(has) => first_fitting(&[(*has == self.focus, Reason::FocusTwice)]),
        }
    }

    /// The pointer ids that are down on a device.
    pub fn ids_down(&self, device: DeviceId) -> Bits32
        ensures { members result ≡ (state_of self.now).ids device }
    {
        self.down[row(device)]
    }

    /// The keys that are down, in rising order of their devices and scan codes.
    pub fn keys_down(&self, alloc: Global) -> Result<Vec<HeldKey>, AllocError>
        ensures rising { IfOk result (λ keys. are_rising keys.items ≡ true) }
        ensures exact { (d s : ℕ)
            → IfOk result (λ keys. is_held d s keys.items ≡ is_some ((state_of self.now).repeats d s)) }
    {
        held_keys(alloc, &self.repeats)
    }

    /// Applies a message, if it is allowed.
    fn take(&mut self, body: &Body) -> Result<bool, AllocError>
        ensures { Takes result self.old self.new body.now }
    {
        match body {
            Body::Motion(motion) => Ok(self.take_motion(motion)),
            Body::Key(key) => self.take_key(key),
            Body::Focus(had) => Ok(self.take_focus(*had)),
        }
    }

    fn take_motion(&mut self, motion: &Motion) -> bool
        ensures { Takes (Ok result) self.old self.new (Body.Motion motion.now) }
    {
        let row = row(motion.device);
        match next_sent(self.down[row], motion) {
            Some(held) => {
                self.down[row] = held;
                true
            }
            None => false,
        }
    }

    fn take_key(&mut self, message: &KeyMsg) -> Result<bool, AllocError>
        ensures { Takes result self.old self.new (Body.Key message.now) }
    {
        let at = place(&message.key);
        let Some(next) = next_repeat(due(&self.repeats, at), message) else {
            return Ok(false);
        };
        keep(&mut self.repeats, at, next)?;
        Ok(true)
    }

    fn take_focus(&mut self, had: bool) -> bool
        ensures { Takes (Ok result) self.old self.new (Body.Focus had) }
    {
        if had == self.focus {
            return false;
        }
        self.focus = had;
        true
    }

    /// The fault of a message that is not allowed.
    fn fault(&self, message: &Message) -> Fault
        ensures { after_body (state_of self.now) message.now.body ≡ None → IsFault self.now message.now result }
    {
        Fault {
            place: self.accepted,
            held: self.held(&message.body),
            next_repeat: self.next_repeat(&message.body),
            focus: self.focus,
            message: *message,
            reason: self.reason(&message.body),
        }
    }

    /// The ids that are down on the device of a motion, as bits.
    fn held(&self, body: &Body) -> u32
        ensures { members result ≡ ids_of_body (state_of self.now) body.now }
    {
        match body {
            Body::Motion(motion) => self.down[row(motion.device)].bits(),
            Body::Key(_) | Body::Focus(_) => nothing().bits(),
        }
    }

    /// The next repeat number of the key of a key message.
    fn next_repeat(&self, body: &Body) -> Option<u64>
        ensures { result ≡ due_of_body (state_of self.now) body.now }
    {
        match body {
            Body::Key(message) => due(&self.repeats, place(&message.key)),
            Body::Motion(_) | Body::Focus(_) => None,
        }
    }
}

/// The place of a device in a table that begins with device 1.
fn row(device: DeviceId) -> usize
    ensures place { result ≡ device - 1 }
    ensures device { IsTrue (is_device device) }
    ensures range { result < 8 }
{
    usize::from(device.get() - 1)
}
