//! What args change, and why they may not come.
use bits32::Bits32;
use input_types::DeviceId;

/// A change of what is down on one device.
#[derive(Clone, Copy, Debug, PartialEq, Eq)]
pub struct Change {
    pub device: DeviceId,
    pub becomes: Becomes,
}

/// What becomes of it: other pointers are down, a key goes down or up, or nothing is down.
#[derive(Clone, Copy, Debug, PartialEq, Eq)]
pub enum Becomes {
    Pointers(Bits32),
    Key { scan: u16, down: bool },
    Nothing,
}

/// Args that may not come: the ids that are down on their device, as bits, and whether they are about a key that is
/// down.
#[derive(Clone, Copy, Debug, PartialEq, Eq)]
pub struct Inconsistent {
    pub pointers: u32,
    pub key_down: bool,
}
