//! The keys that are down, as C gets them.
ghost use Rattle.std.specs.Prelude.{◌≡◌, ◌≤◌, ◌++◌, map, drop, length};
ghost use Rattle.inputflinger_c.specs.Keys.{plain_key};

use gesture_verifier::HeldKey;

/// A key that is down: `struct inputflinger_key`.
#[repr(C)]
#[derive(Clone, Copy, Debug)]
pub struct PlainKey {
    /// 1 to 8.
    pub device: u16,
    /// The kernel's scan code.
    pub scan: u16,
}

/// A key as C gets it.
fn plain_key(key: &HeldKey) -> PlainKey
    ensures { result ≡ plain_key key.now }
{
    PlainKey {
        device: u16::from(key.device.get()),
        scan: key.scan,
    }
}

/// Writes keys to the first places.
pub(crate) fn write_keys(places: &mut [PlainKey], keys: &[HeldKey])
    requires { length keys.now ≤ length places.old }
    ensures { places.new ≡ map plain_key keys.now ++ drop (length keys.now) places.old }
{
    for i in 0..keys.len() {
        places[i] = plain_key(&keys[i]);
    }
}
