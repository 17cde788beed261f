//! What a turn takes.
ghost use Rattle.std.specs.Prelude.{◌≡◌};
ghost use Rattle.routing_rules.specs.Taking.{takes};
ghost use Rattle.window_snapshot.specs.Named.{is_named};
ghost use Rattle.route_plain.specs.Loss.{taking_of};

use crate::hold::{Hold, has_id};
use bits32::Bits32;
use input_types::{DeviceId, PointerId};
use window_snapshot::{Window, mask_has};

/// What a turn takes: one variant for each way. The sets of ids and the masks of channels are bits.
#[derive(Clone, Copy)]
pub(crate) enum Loss {
    None,
    /// one pointer from all windows
    Lift {
        device: DeviceId,
        id: PointerId,
    },
    /// all pointers of a device from all windows
    Empty {
        device: DeviceId,
    },
    /// one pointer from one window
    Slip {
        window: u32,
        device: DeviceId,
        id: PointerId,
    },
    /// these pointers of a device from all windows but one
    Pilfer {
        window: u32,
        device: DeviceId,
        ids: Bits32,
    },
    /// all pointers from windows that the snapshot does not list
    Unnamed,
    /// all pointers from these channels
    Mute {
        channels: u64,
    },
    /// all pointers from one channel
    Forget {
        channel: u32,
    },
}

/// Whether the hold is taken, with these windows in the snapshot.
pub(crate) fn is_taken(loss: &Loss, windows: &[Window], hold: &Hold) -> bool
    ensures { result ≡ takes (taking_of windows.now loss.now) hold.now.window hold.now.device hold.now.id }
{
    match *loss {
        Loss::None => false,
        Loss::Lift { device, id } => is_pointer(hold, device, id),
        Loss::Empty { device } => hold.device.get() == device.get(),
        Loss::Slip { window, device, id } => hold.window == window && is_pointer(hold, device, id),
        Loss::Pilfer {
            window,
            device,
            ids,
        } => { hold.window != window && hold.device.get() == device.get() && has_id(ids, hold.id) }
        Loss::Unnamed => !is_named(windows, hold.window),
        Loss::Mute { channels } => mask_has(channels, hold.window),
        Loss::Forget { channel } => hold.window == channel,
    }
}

/// Whether a window of the snapshot is of the channel.
fn is_named(windows: &[Window], channel: u32) -> bool
    ensures { result ≡ is_named windows.now channel }
{
    windows.iter().any(|window| window.channel == channel)
}

ghost use Rattle.std.specs.Prelude.{◌==◌, ◌&&◌};

/// Whether it is a hold of the pointer with this id of the device.
fn is_pointer(hold: &Hold, device: DeviceId, id: PointerId) -> bool
    ensures { result ≡ (hold.now.device == device && hold.now.id == id) }
{
    hold.device.get() == device.get() && hold.id.get() == id.get()
}
