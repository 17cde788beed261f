//! The turns of the router, and what is sent at them.
use input_types::{DeviceId, Motion};

/// A step that changes who holds what, or sends windows something for what they hold. Channels are numbers from 1 to
/// 64.
#[derive(Clone, Copy, Debug, PartialEq, Eq)]
pub enum Turn {
    /// A motion of a device, in display pixels. An up with FLAG_CANCELED and a `Cancel` of the only pointer, as of a
    /// finger that became a palm, are ups: the windows that held the pointer lose it, and are sent its cancel.
    Pointers(Motion),
    /// A device begins anew: all its pointers are taken from all windows.
    Reset(DeviceId),
    /// A spy takes what it holds of a device from all other windows.
    Pilfer {
        /// The spy's channel.
        channel: u32,
        device: DeviceId,
    },
    /// The snapshot is a new one: windows that are not in it lose everything that they hold.
    Windows,
    /// Channels are found unresponsive: they lose everything that they hold.
    Mute {
        /// The mask of these channels.
        channels: u64,
    },
    /// A channel is removed: it loses everything that it holds, and is sent nothing.
    Forget {
        /// That channel.
        channel: u32,
    },
}

/// What a channel is sent, in display pixels.
#[derive(Clone, Copy, Debug, PartialEq, Eq)]
pub struct Said {
    /// The channel, 1 to 64.
    pub channel: u32,
    pub motion: Motion,
}
