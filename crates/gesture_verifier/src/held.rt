//! The keys that are down.
ghost use Rattle.std.specs.Prelude.{◌≡◌, ◌<◌, ℕ, true, is_some, IfOk};
ghost use Rattle.gesture_verifier.specs.Held.{are_rising, is_held, key_at};
ghost use Rattle.gesture_verifier.specs.Told.{are_places, due_kept};

use input_types::DeviceId;
use std::alloc::{AllocError, Global};
use std::collections::BTreeMap;

/// A key that is down.
#[derive(Clone, Copy, Debug, PartialEq, Eq)]
pub struct HeldKey {
    pub device: DeviceId,
    /// The kernel's scan code.
    pub scan: u16,
}

/// The key at a place.
fn key_at(place: u32) -> HeldKey
    requires { place < 524288 }
    ensures { result ≡ key_at place }
{
    let device = (place / 65536 + 1) as u8;
    HeldKey {
        device: DeviceId::new(device).unwrap(),
        scan: (place % 65536) as u16,
    }
}

/// The keys of a table, in rising order.
pub(crate) fn held_keys(
    alloc: Global,
    table: &BTreeMap<u32, u64>,
) -> Result<Vec<HeldKey>, AllocError>
    requires { are_places table.now.entries ≡ true }
    ensures rising { IfOk result (λ keys. are_rising keys.items ≡ true) }
    ensures exact { (d s : ℕ)
        → IfOk result (λ keys. is_held d s keys.items ≡ is_some (due_kept table.now.entries d s)) }
{
    let mut keys = Vec::new(alloc);
    for place in table.keys() {
        keys.push(key_at(*place))?;
    }
    Ok(keys)
}
