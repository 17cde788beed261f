//! What the owner of a channel reads of what its window is sent.
ghost use Rattle.std.specs.Prelude.{◌≡◌};
ghost use Rattle.routing_rules.specs.Cover.{with_flags};
ghost use Rattle.dispatch_history.specs.Said.{motion_from};
ghost use Rattle.dispatcher.specs.InputChannel.Moves.{counted_from};
ghost use Rattle.dispatcher.specs.DispatchChannels.FromOrigin.{body_from};

use crate::input_channel::list_from;
use input_types::{Body, Motion, Pixel, Pointers};

/// A body in display pixels, with the positions of a motion counted from an origin.
pub(crate) fn body_from(origin: Pixel, body: &Body) -> Body
    ensures { result ≡ body_from origin body.now }
{
    match body {
        Body::Motion(motion) => Body::Motion(motion_from(origin, motion.flags, motion)),
        Body::Key(message) => Body::Key(*message),
        Body::Focus(has_focus) => Body::Focus(*has_focus),
    }
}

/// A motion with these flags, whose positions count from an origin. It is inlined, so that its list is not copied on
/// the way out.
#[inline(always)]
pub(crate) fn motion_from(origin: Pixel, flags: u32, motion: &Motion) -> Motion
    ensures { result ≡ motion_from origin (with_flags flags motion.now) }
{
    Motion {
        device: motion.device,
        action: motion.action,
        index: motion.index,
        flags,
        pointers: pointers_from(origin, &motion.pointers),
    }
}

/// Pointers whose positions count from an origin.
#[inline(always)]
fn pointers_from(origin: Pixel, pointers: &Pointers) -> Pointers
    ensures { result ≡ counted_from origin pointers.now }
{
    let mut moved = Pointers::empty();
    list_from(&mut moved, pointers, origin);
    moved
}
