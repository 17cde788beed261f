//! The delays of a window's repeats.
ghost use Rattle.std.specs.Prelude.{◌≡◌};
ghost use Rattle.key_repeat.specs.Due.{android_delays};

use crate::delay::Delay;

/// When a held key is repeated: `first` after it went down, and `next` after each repeat.
#[derive(Clone, Copy, Debug, PartialEq, Eq)]
pub struct Repeats {
    pub first: Delay,
    pub next: Delay,
}

impl Repeats {
    /// The defaults of Android's `ViewConfiguration`: half a second, and then a twentieth of a second.
    pub fn android() -> Repeats
        ensures { result ≡ android_delays }
    {
        Repeats {
            first: Delay::new(500_000).unwrap(),
            next: Delay::new(50_000).unwrap(),
        }
    }
}
