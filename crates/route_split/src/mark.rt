//! What a step gives and takes.
use input_types::{DeviceId, PointerId};

/// What a step gives to windows and takes from them. A window is named by the number of its channel, and masks are
/// sets of channels.
#[derive(Clone, Copy, Debug)]
pub enum Mark {
    /// A step that changes nothing.
    NoOp,
    /// A pointer goes down in these windows.
    Give {
        device: DeviceId,
        id: PointerId,
        windows: u64,
    },
    /// A pointer goes up, or is cancelled: it is taken from all windows.
    Lift {
        device: DeviceId,
        id: PointerId,
    },
    /// A pointer slips from one window to another.
    Slip {
        device: DeviceId,
        id: PointerId,
        from: u32,
        to: u32,
    },
    /// A device is reset: all its pointers are taken from all windows.
    Empty {
        device: DeviceId,
    },
    /// A window takes what it holds of a device from all other windows.
    Pilfer {
        device: DeviceId,
        window: u32,
    },
    /// A new snapshot, in which these windows stay: everything is taken from the others.
    Unnamed {
        stays: u64,
    },
    /// These windows are found unresponsive: everything is taken from them.
    Mute {
        channels: u64,
    },
    /// A channel is removed: everything is taken from its window.
    Forget {
        window: u32,
    },
}
