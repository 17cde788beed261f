//! What is down on one device.
ghost use Rattle.std.specs.Prelude.{◌≡◌, length, IfOk};
ghost use Rattle.std.specs.Option.{option_map};
ghost use Rattle.bits32.specs.Set.{members};
ghost use Rattle.input_types.specs.DeviceRule.{is_of_device, nothing_down};
ghost use Rattle.dispatcher.specs.Down.{IsFirstDown};
ghost use Rattle.dispatcher.specs.InboundArgs.Down.{state_of, changed, Plans, own_after};

use crate::inbound::change::{Becomes, Inconsistent};
use crate::inbound::keys::KeysDown;
use bits32::Bits32;
use input_types::{Args, KeyArgs, Motion, MotionAction};
use pointers_down::{next_held, nothing};
use std::alloc::{AllocError, Global};
use std::marker::Model;

/// The pointers and the keys that are down.
#[derive(Drop)]
pub(crate) struct DeviceDown {
    pointers: Bits32,
    keys: KeysDown,
}

impl Model for DeviceDown {
    ghost use Rattle.dispatcher.specs.InboundArgs.Kept.{DownSets};

    ghost Value = { DownSets };

    ghost view = { λ d. record { ids = d.pointers; keys = d.keys } };
}

impl DeviceDown {
    /// Nothing is down.
    pub(crate) fn new(alloc: Global) -> Result<DeviceDown, AllocError>
        ensures { IfOk result (λ d. state_of d ≡ nothing_down) }
    {
        let keys = KeysDown::new(alloc)?;
        Ok(DeviceDown {
            pointers: Bits32::empty(),
            keys,
        })
    }

    /// What args of the device change, or what is down if they may not come.
    pub(crate) fn plan(&self, args: &Args) -> Result<Becomes, Inconsistent>
        ensures { Plans (state_of self.now) args.now result }
    {
        match args {
            Args::Motion(motion) => self.plan_motion(motion),
            Args::Key(key) => self.plan_key(key),
            Args::Reset(_) => Ok(Becomes::Nothing),
        }
    }

    fn plan_motion(&self, motion: &Motion) -> Result<Becomes, Inconsistent>
        ensures { Plans (state_of self.now) (Args.Motion motion.now) result }
    {
        match next_own(self.pointers, motion) {
            Some(ids) => Ok(Becomes::Pointers(ids)),
            None => Err(self.refused(false)),
        }
    }

    fn plan_key(&self, key: &KeyArgs) -> Result<Becomes, Inconsistent>
        ensures { Plans (state_of self.now) (Args.Key key.now) result }
    {
        let is_down = self.keys.has(key.scan);
        if key.down == is_down {
            return Err(self.refused(is_down));
        }
        Ok(Becomes::Key {
            scan: key.scan,
            down: key.down,
        })
    }

    /// The first key that is down, from a scan code on.
    pub(crate) fn first_key(&self, from: u32) -> Option<u16>
        ensures { IsFirstDown (state_of self.now).keys from result }
    {
        self.keys.first(from)
    }

    /// The answer to args that may not come.
    fn refused(&self, key_down: bool) -> Inconsistent
        ensures pointers { members result.pointers ≡ (state_of self.now).ids }
        ensures key { result.key_down ≡ key_down }
    {
        Inconsistent {
            pointers: self.pointers.bits(),
            key_down,
        }
    }

    /// Changes what is down. Takes no memory.
    pub(crate) fn apply(&mut self, becomes: &Becomes)
        ensures { state_of self.new ≡ changed becomes.now (state_of self.old) }
    {
        match *becomes {
            Becomes::Pointers(ids) => self.pointers = ids,
            Becomes::Key { scan, down } => self.keys.set(scan, down),
            Becomes::Nothing => {
                self.pointers = nothing();
                self.keys.clear();
            }
        }
    }
}

/// The ids that are down after a motion of the device itself; None if the motion may not come.
fn next_own(held: Bits32, motion: &Motion) -> Option<Bits32>
    ensures { option_map members result ≡ own_after (members held) motion.now }
{
    if is_of_device(motion) {
        next_held(held, motion)
    } else {
        None
    }
}

/// Whether a device makes this motion itself: a Cancel only of its last pointer, and an Outside never.
fn is_of_device(motion: &Motion) -> bool
    ensures { result ≡ is_of_device motion.now.action (length motion.now.pointers) }
{
    match motion.action {
        MotionAction::Cancel => motion.pointers.len() == 1,
        MotionAction::Outside => false,
        MotionAction::Down
        | MotionAction::Up
        | MotionAction::Move
        | MotionAction::PointerDown
        | MotionAction::PointerUp => true,
    }
}
