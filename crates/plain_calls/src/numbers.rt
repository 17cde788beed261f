//! Numbers that C hands in and gets back.
ghost use Rattle.std.specs.Prelude.{◌≡◌};
ghost use Rattle.gesture_verifier.specs.Told.{is_device};
ghost use Rattle.plain_calls.specs.Numbers.{moment_of, device_of, display_of, percent_of, occlusion_of, limit_of, flag};

use input_types::{DeviceId, DisplayId, Limit, Moment};
use window_snapshot::{Occlusion, Percent};

/// The time with this many microseconds, if it is at most 10^18.
pub(crate) fn moment_of(us: u64) -> Option<Moment>
    ensures { result ≡ moment_of us }
{
    if us > Moment::MAX_US {
        return None;
    }
    Some(Moment::new(us).unwrap())
}

/// The device with a number, if it is 1 to 8.
pub(crate) fn device_of(number: u8) -> Option<DeviceId>
    ensures { result ≡ device_of number }
{
    if !is_device(number) {
        return None;
    }
    Some(DeviceId::new(number).unwrap())
}

/// The display with a number, if it is 0 to 3.
pub(crate) fn display_of(number: u8) -> Option<DisplayId>
    ensures { result ≡ display_of number }
{
    if number > DisplayId::MAX {
        return None;
    }
    Some(DisplayId::new(number).unwrap())
}

/// The percentage, if it is at most 100.
pub(crate) fn percent_of(number: u8) -> Option<Percent>
    ensures { result ≡ percent_of number }
{
    if number > Percent::MAX {
        return None;
    }
    Some(Percent::new(number).unwrap())
}

/// The occlusion with a number, if it is 0 to 2.
pub(crate) fn occlusion_of(number: u8) -> Option<Occlusion>
    ensures { result ≡ occlusion_of number }
{
    let occlusions = [Occlusion::Block, Occlusion::Opacity, Occlusion::Allow];
    occlusions.get(usize::from(number)).copied()
}

/// The limit with this many microseconds, if it is 1,000 to 600,000,000.
pub(crate) fn limit_of(us: u64) -> Option<Limit>
    ensures { result ≡ limit_of us }
{
    if us < Limit::MIN_US || us > Limit::MAX_US {
        return None;
    }
    Some(Limit::new(us).unwrap())
}

/// Whether a device has this number.
pub(crate) fn is_device(number: u8) -> bool
    ensures { result ≡ is_device number }
{
    1 <= number && number <= DeviceId::MAX
}

/// 1 for true, and 0 for false.
pub fn flag(is_so: bool) -> u8
    ensures { result ≡ flag is_so }
{
    if is_so { 1 } else { 0 }
}
