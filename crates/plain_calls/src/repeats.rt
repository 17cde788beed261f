//! When held keys are repeated, in plain numbers.
ghost use Rattle.std.specs.Prelude.{◌≡◌};
ghost use Rattle.plain_calls.specs.Repeats.{is_delay, repeats_of, terms_of};

use crate::numbers::limit_of;
use dispatch_calls::Terms;
use key_repeat::{Delay, Repeats};

/// When held keys are repeated: `struct inputflinger_repeats`. Both are 0 if never.
#[repr(C)]
#[derive(Clone, Copy, Debug)]
pub struct PlainRepeats {
    /// How long after its down a key is repeated for the first time, in microseconds.
    pub first_us: u64,
    /// How long after each repeat it is repeated again, in microseconds.
    pub next_us: u64,
}

impl PlainRepeats {
    /// The repeats, in which None says that keys are never repeated; None if a number is out of its range.
    fn read(&self) -> Option<Option<Repeats>>
        ensures { result ≡ repeats_of self.now }
    {
        if self.first_us == 0 && self.next_us == 0 {
            return Some(None);
        }
        if !is_delay(self.first_us) || !is_delay(self.next_us) {
            return None;
        }
        Some(Some(Repeats {
            first: Delay::new(self.first_us).unwrap(),
            next: Delay::new(self.next_us).unwrap(),
        }))
    }
}

/// Whether a delay has this many microseconds.
fn is_delay(us: u64) -> bool
    ensures { result ≡ is_delay us }
{
    Delay::MIN_US <= us && us <= Delay::MAX_US
}

/// What channels are opened with: this limit, and these repeats. None if a number is out of its range.
pub fn terms_of(limit_us: u64, repeats: &PlainRepeats) -> Option<Terms>
    ensures { result ≡ terms_of limit_us repeats.now }
{
    let limit = limit_of(limit_us)?;
    let repeats = repeats.read()?;
    Some(Terms { limit, repeats })
}
