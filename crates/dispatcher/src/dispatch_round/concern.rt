//! Which windows a step may send something.
ghost use Rattle.std.specs.Prelude.{◌≡◌, ℕ};
ghost use Rattle.std.specs.List.{list_any};
ghost use Rattle.std.specs.Option.{option_copied};
ghost use Rattle.window_snapshot.specs.Mask.{mask_has, mask_with};
ghost use Rattle.routing_rules.specs.Outgoing.{devices};
ghost use Rattle.route_split.specs.Marking.{may_be_sent};
ghost use Rattle.dispatcher.specs.DispatchRound.Rounds.{may_reach, keyed, is_concerned, AreListeners};

use crate::dispatch_channels::Channels;
use crate::dispatch_round::devices::device_at;
use crate::dispatch_round::motions::may_take;
use crate::dispatch_round::round::Round;
use input_types::KeyMsg;
use route_split::{Mark, Touches};
use window_snapshot::mask_with;

/// The mask of the windows that hold something of any device, or are given something.
fn all_concerned(mark: &Mark, touches: &Touches) -> u64
    ensures { (w : ℕ) → mask_has result w ≡ list_any (may_be_sent touches.now mark.now w) devices }
{
    let mut mask = 0;
    'devices: for place in 0..8u8 {
        mask |= touches.concerned(mark, device_at(place));
    }
    mask
}

/// The mask of the windows that may be sent a motion.
fn may_reach(round: &Round, touches: &Touches) -> u64
    ensures { (w : ℕ) →
        mask_has result w ≡ may_reach touches.now round.now.mark (option_copied round.now.motion) round.now.watchers w }
{
    match round.motion {
        Some(motion) => touches.concerned(&round.mark, motion.device) | round.watchers,
        None => {
            if may_take(&round.mark) {
                all_concerned(&round.mark, touches)
            } else {
                0
            }
        }
    }
}

/// The mask of the window that is sent keys, if there are any.
pub(crate) fn keyed(keys: &[KeyMsg], target: u32) -> u64
    ensures { result ≡ keyed keys.now target }
{
    if keys.is_empty() {
        0
    } else {
        mask_with(0, target)
    }
}

/// The mask of the live windows that a round may send something, before the tables of touches change by it.
pub fn listeners(round: &Round, touches: &Touches, channels: &Channels) -> u64
    ensures { AreListeners result touches.now round.now channels.now }
{
    concerned(round, touches) & channels.live()
}

/// The mask of the windows that a round may send something, live or not.
fn concerned(round: &Round, touches: &Touches) -> u64
    ensures { (w : ℕ) → mask_has result w ≡ is_concerned touches.now round.now w }
{
    may_reach(round, touches) | keyed(round.keys, round.target) | round.lost | round.gained
}
