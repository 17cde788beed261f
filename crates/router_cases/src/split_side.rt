//! The split router with what its windows were sent, as the plain one is used.
ghost use Rattle.std.specs.Prelude.{◌≡◌, true};
ghost use Rattle.window_snapshot.specs.Mask.{is_channel};
ghost use Rattle.route_split.specs.Marking.{IsWhole};

use bits32::Bits32;
use dispatcher::cancel_synthesis::InputState;
use input_types::{Body, DeviceId, DisplayId, Motion};
use pilfer_monitor::Losses;
use route_plain::{Said, Turn};
use route_split::{Mark, Sends, Touches, watchers};
use std::alloc::Global;
use std::test::Fail;
use window_snapshot::{Reach, Snapshot, is_channel, mask_has};

/// The tables, and the input state of each of the windows 1 to 64.
#[derive(Drop)]
pub(crate) struct SplitSide {
    alloc: Global,
    touches: Touches,
    states: Vec<InputState>,
}

impl SplitSide {
    pub(crate) fn new(alloc: Global) -> Result<SplitSide, Fail> {
        let mut states = Vec::new(alloc);
        for _window in 0..64 {
            states.push(InputState::new(alloc))?;
        }
        Ok(SplitSide {
            alloc,
            touches: Touches::new(alloc)?,
            states,
        })
    }

    /// The ids that a window holds of a device.
    pub(crate) fn holds(&self, channel: u32, device: DeviceId) -> u32 {
        if is_channel(channel) {
            self.touches.held(channel, device).bits()
        } else {
            0
        }
    }

    /// Takes the turn with this number, and returns what is sent. The masks are those of the live channels and of the
    /// able ones.
    pub(crate) fn turn(
        &mut self,
        turn: &Turn,
        windows: &Snapshot,
        masks: (u64, u64),
        number: u64,
    ) -> Result<Vec<Said>, Fail> {
        let mut said = Vec::new(self.alloc);
        match turn {
            Turn::Pointers(motion) => {
                let reach = Reach {
                    channels: masks.0,
                    display: DisplayId::zero(),
                };
                let mark = self.touches.mark_of(motion, windows, &reach, masks.1);
                let watching = watchers(motion, windows, &reach, masks.1);
                let _none_lost = self.touches.change(&mark, number);
                self.send_motion(&mut said, motion, watching)?;
            }
            _ => {
                let mark = mark_of(turn, windows);
                let losses = self.touches.change(&mark, number);
                self.send_losses(&mut said, &mark, losses.as_ref())?;
                self.forget(turn);
            }
        }
        Ok(said)
    }

    /// A removed channel is sent nothing more, and what it was sent is dropped.
    fn forget(&mut self, turn: &Turn) {
        if let Turn::Forget { channel } = turn {
            if let Some(state) = self.states.get_mut(place_of(*channel)) {
                *state = InputState::new(self.alloc);
            }
        }
    }

    /// Tells each window of a motion, by which the tables have changed.
    fn send_motion(
        &mut self,
        said: &mut Vec<Said>,
        motion: &Motion,
        watching: u64,
    ) -> Result<(), Fail> {
        for channel in 1..65 {
            if is_channel(channel) {
                let watches = mask_has(watching, channel);
                let before = self.sent_ids(channel, motion.device);
                let sends = self.touches.sends(motion, channel, before, watches);
                self.send(said, channel, motion.device, &sends)?;
            }
        }
        Ok(())
    }

    /// The ids of a device that are still down in a window's stream.
    fn sent_ids(&self, channel: u32, device: DeviceId) -> Bits32 {
        let mut ids = Bits32::empty();
        if let Some(state) = self.states.get(place_of(channel)) {
            for pointer in state.pointers(device).as_slice() {
                ids.mark(pointer.id.get());
            }
        }
        ids
    }

    /// Sends each window what it lost of each device; removing a channel sends nothing.
    fn send_losses(
        &mut self,
        said: &mut Vec<Said>,
        mark: &Mark,
        losses: Option<&Losses>,
    ) -> Result<(), Fail> {
        for channel in 1..65 {
            for number in 1..9 {
                let device = DeviceId::new(number).ok_or("a device")?;
                let lost = self.lost(mark, losses, channel, device);
                self.cancel(said, channel, device, lost)?;
            }
        }
        Ok(())
    }

    /// The ids that a window lost of a device.
    fn lost(&self, mark: &Mark, losses: Option<&Losses>, channel: u32, device: DeviceId) -> Bits32 {
        if !is_channel(channel) {
            return Bits32::empty();
        }
        match *mark {
            Mark::Forget { window: _ } => Bits32::empty(),
            Mark::Pilfer {
                device: of,
                window: _,
            } => pilfered(losses, of == device, channel),
            _ => self.not_held(channel, device),
        }
    }

    /// The ids that are down in a window's stream and that it does not hold.
    fn not_held(&self, channel: u32, device: DeviceId) -> Bits32
        requires { is_channel channel ≡ true }
    {
        let held = self.touches.held(channel, device);
        let mut lost = self.sent_ids(channel, device);
        for id in 0..32 {
            if held.has(id) {
                lost.clear(id);
            }
        }
        lost
    }

    /// Sends a window what the router answered, and adds it to what was sent.
    fn send(
        &mut self,
        said: &mut Vec<Said>,
        channel: u32,
        device: DeviceId,
        sends: &Sends,
    ) -> Result<(), Fail> {
        match sends {
            Sends::Nothing => Ok(()),
            Sends::One(motion) => self.say(said, channel, motion),
            Sends::Cancels { lost } => self.cancel(said, channel, device, *lost),
        }
    }

    /// The cancels of what a window loses.
    fn cancel(
        &mut self,
        said: &mut Vec<Said>,
        channel: u32,
        device: DeviceId,
        lost: Bits32,
    ) -> Result<(), Fail> {
        if let Some(state) = self.states.get(place_of(channel)) {
            let motions = state.cancel_pointers(device, lost)?;
            for motion in motions.as_slice() {
                self.say(said, channel, motion)?;
            }
        }
        Ok(())
    }

    fn say(&mut self, said: &mut Vec<Said>, channel: u32, motion: &Motion) -> Result<(), Fail> {
        if let Some(state) = self.states.get_mut(place_of(channel)) {
            state.track(&Body::Motion(*motion))?;
            said.push(Said {
                channel,
                motion: *motion,
            })?;
        }
        Ok(())
    }
}

/// What a window lost to a spy that pilfered the device.
fn pilfered(losses: Option<&Losses>, is_device: bool, channel: u32) -> Bits32
    requires { is_channel channel ≡ true }
{
    match losses {
        Some(losses) => {
            if is_device {
                losses.lost(channel)
            } else {
                Bits32::empty()
            }
        }
        None => Bits32::empty(),
    }
}

/// The place of a channel in a list that begins with channel 1.
fn place_of(channel: u32) -> usize {
    channel.saturating_sub(1) as usize
}

/// The mark of a turn that is no motion.
fn mark_of(turn: &Turn, windows: &Snapshot) -> Mark
    ensures { IsWhole result }
{
    match *turn {
        Turn::Pointers(_) => Mark::NoOp,
        Turn::Reset(device) => Mark::Empty { device },
        Turn::Pilfer { channel, device } => pilfer_mark(channel, device),
        Turn::Windows => Mark::Unnamed {
            stays: windows.names(),
        },
        Turn::Mute { channels } => Mark::Mute { channels },
        Turn::Forget { channel } => Mark::Forget { window: channel },
    }
}

/// The mark of a window that pilfers.
fn pilfer_mark(channel: u32, device: DeviceId) -> Mark
    ensures { IsWhole result }
{
    if is_channel(channel) {
        Mark::Pilfer {
            device,
            window: channel,
        }
    } else {
        Mark::NoOp
    }
}
