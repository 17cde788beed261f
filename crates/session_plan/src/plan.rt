//! What a session file says.
ghost use Rattle.std.specs.Prelude.{◌≡◌, ◌≤◌, length, map};
ghost use Rattle.session_plan.specs.DeviceDisplays.{device_displays, kind_display};
ghost use Rattle.session_plan.specs.View.{device_view};

use input_types::{Axis, DeviceId, DisplayId, Displays, Limit, Moment, Rotation};
use key_layout::Layout;
use key_repeat::Repeats;
use window_snapshot::Snapshot;

/// A session: its displays, devices, channels and steps, a time up to which it lasts at least, and the delays of its
/// repeats.
#[derive(Drop)]
pub struct Plan {
    /// Display k is the k-th of these, from 0. There are 1 to 4.
    pub displays: Vec<Display>,

    /// Device k is the k-th of these, from 1.
    pub devices: Vec<DevicePlan>,

    /// Channel k is the k-th of these, from 1.
    pub channels: Vec<ChannelPlan>,

    /// In rising time, and in the order of the file if times are equal.
    pub steps: Vec<Step>,

    pub end: Moment,

    /// When held keys are repeated; None if they are not, since the clients do so by themselves.
    pub repeats: Option<Repeats>,
}

/// A display: its natural extent in pixels, each 1 to 16384, and how far it is turned.
#[derive(Clone, Copy, Debug, PartialEq, Eq)]
pub struct Display {
    pub width: u16,
    pub height: u16,
    pub rotation: Rotation,
}

/// An input device.
#[derive(Drop)]
pub struct DevicePlan {
    /// The path that its events are recorded with. It begins with a slash, has no blank, and no other device has it.
    pub path: String,
    pub kind: DeviceKind,
}

/// What a device is.
#[derive(Drop)]
pub enum DeviceKind {
    /// A touch device with 1 to 16 slots, the ranges of its raw positions, and the display that it is on.
    Touch {
        slots: u8,
        x: Axis,
        y: Axis,
        display: DisplayId,
    },

    /// A device with keys.
    Keys {
        layout: Layout,
    },
}

/// A channel to a window's owner.
#[derive(Drop)]
pub struct ChannelPlan {
    /// Its name, of 1 to 64 printable bytes without blanks, which no other channel has.
    pub name: String,

    /// How long it may leave a message unfinished.
    pub limit: Limit,

    /// How long after the receipt of a message it finishes it, in microseconds, at most 10^15.
    pub finish_after: u64,

    /// Whether it finishes messages at all.
    pub finishes: bool,
}

/// Something that is done at a time, on a lane from 1 to 8.
#[derive(Drop)]
pub struct Step {
    pub at: Moment,
    pub lane: u8,
    pub act: Act,
}

/// What a step does.
#[derive(Drop)]
pub enum Act {
    /// These are the windows from now on.
    Windows(Snapshot),

    /// This channel is to have the focus of a display, or none.
    FocusOn {
        display: DisplayId,
        channel: Option<u32>,
    },

    /// The channel takes the pointers of a device for itself.
    Pilfer {
        channel: u32,
        device: DeviceId,
    },

    /// The channel goes away.
    Remove {
        channel: u32,
    },
}

impl DeviceKind {
    /// The display that the device is on; display 0 for one with keys.
    fn display(&self) -> DisplayId
        ensures { result ≡ kind_display self.now }
    {
        match self {
            DeviceKind::Touch { display, .. } => *display,
            DeviceKind::Keys { .. } => DisplayId::zero(),
        }
    }
}

impl Plan {
    /// The display of each device: that of a touch device, and display 0 for every other.
    pub fn device_displays(&self) -> Displays
        requires { length self.now.devices.items ≤ 8 }
        ensures { result ≡ device_displays (map device_view self.now.devices.items) }
    {
        let mut displays = Displays::new();
        for (i, device) in self.devices.iter().enumerate() {
            let number = DeviceId::new(i as u8 + 1).unwrap();
            displays.set(number, device.kind.display());
        }
        displays
    }
}
