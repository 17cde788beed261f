//! What is down on each device.
ghost use Rattle.std.specs.Prelude.{◌≡◌, ◌-◌, ◌<◌, ◌≤◌, [], length, IfOk};
ghost use Rattle.input_types.specs.DeviceRule.{device_of};
ghost use Rattle.dispatcher.specs.Down.{IsFirstDown};
ghost use Rattle.dispatcher.specs.InboundArgs.Down.{PlansAt, Changes, DevicesStandFor, state_at};

use crate::inbound::change::{Change, Inconsistent};
use crate::inbound::device::DeviceDown;
use input_types::{Args, DeviceId};
use std::alloc::{AllocError, Global};
use std::marker::Model;

/// The pointers and the keys that are down on each of the devices 1 to 8.
#[derive(Drop)]
pub struct DevicesDown {
    /// From device 1 on.
    devices: Vec<DeviceDown>,
}

impl Model for DevicesDown {
    ghost use Rattle.std.specs.Prelude.{◌≡◌, List, length};
    ghost use Rattle.dispatcher.specs.InboundArgs.Kept.{DownSets};

    ghost Value = { List DownSets };

    ghost view = { λ d. d.devices.items };

    ghost invariant = { λ d. length d.devices.items ≡ 8 };
}

impl DevicesDown {
    /// Nothing is down. A device has a bit for each scan code, so all of them take 64 KiB.
    pub fn new(alloc: Global) -> Result<DevicesDown, AllocError>
        ensures { IfOk result (λ d. DevicesStandFor [] d) }
    {
        let devices = untouched(alloc)?;
        Ok(DevicesDown { devices })
    }

    /// What args change, or what is down on their device if they may not come.
    pub fn plan(&self, args: &Args) -> Result<Change, Inconsistent>
        ensures plan { PlansAt self.now args.now result }
        ensures device { (1 ≤ device_of args.now) × (device_of args.now ≤ 8) }
    {
        let device = device_of(args);
        match self.devices[row(device)].plan(args) {
            Ok(becomes) => Ok(Change { device, becomes }),
            Err(refused) => Err(refused),
        }
    }

    /// The first key that is down on a device, from a scan code on.
    pub fn first_key(&self, device: DeviceId, from: u32) -> Option<u16>
        ensures { IsFirstDown (state_at self.now device).keys from result }
    {
        self.devices[row(device)].first_key(from)
    }

    /// Changes what is down. Takes no memory.
    pub fn apply(&mut self, change: &Change)
        ensures { Changes change.now self.old self.new }
    {
        self.devices[row(change.device)].apply(&change.becomes);
    }
}

/// A table in which nothing is down.
fn untouched(alloc: Global) -> Result<Vec<DeviceDown>, AllocError>
    ensures eight { IfOk result (λ v. length v.items ≡ 8) }
    ensures nothing { IfOk result (λ v. DevicesStandFor [] v.items) }
{
    let mut devices = Vec::with_capacity(alloc, 8)?;
    'devices: for _ in 0..8u32 {
        let device = DeviceDown::new(alloc)?;
        devices.push(device)?;
    }
    Ok(devices)
}

/// The device of some args.
pub fn device_of(args: &Args) -> DeviceId
    ensures { result ≡ device_of args.now }
{
    match args {
        Args::Motion(motion) => motion.device,
        Args::Key(key) => key.device,
        Args::Reset(device) => *device,
    }
}

/// The index of a device in a table that begins with device 1.
fn row(device: DeviceId) -> usize
    ensures place { result ≡ device - 1 }
    ensures device { (1 ≤ device) × (device ≤ 8) }
    ensures range { result < 8 }
{
    usize::from(device.get() - 1)
}
