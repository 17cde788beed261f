//! Key events.
use crate::number::DeviceId;

/// A key that went down or up on a device.
#[derive(Clone, Copy, Debug, PartialEq, Eq)]
pub struct KeyArgs {
    pub device: DeviceId,
    /// The kernel's scan code.
    pub scan: u16,
    /// Android's key code, as `KeyEvent.KEYCODE_HOME`; 0 if the layout has none for this scan code.
    pub code: u16,
    /// The meta bits of the keys of the device that are down after this event, as KeyEvent's `getMetaState` gives them.
    pub meta: u32,
    pub down: bool,
}

/// A key message to a window.
#[derive(Clone, Copy, Debug, PartialEq, Eq)]
pub struct KeyMsg {
    pub key: KeyArgs,
    /// 0, or `FLAG_CANCELED` for an up that ends the key but is not a release.
    pub flags: u32,
    /// How often a held key was repeated before; 0 for an up.
    pub repeat: u32,
}
