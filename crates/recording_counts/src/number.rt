//! Numbers that rise.
ghost use Rattle.std.specs.Prelude.{◌≡◌, max, if◌then◌else◌};
ghost use Rattle.recording_counts.specs.Counted.{risen};

/// A number, one greater if the flag says so. At the greatest number of 64 bits it stays.
#[inline(always)]
pub(crate) fn risen_if(n: u64, so: bool) -> u64
    ensures { result ≡ (if so then risen n else n) }
{
    if so { n.saturating_add(1) } else { n }
}

/// The greater of two numbers.
#[inline(always)]
pub(crate) fn greater(a: u64, b: u64) -> u64
    ensures { result ≡ max a b }
{
    if a < b { b } else { a }
}
