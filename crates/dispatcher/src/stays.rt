//! The windows that stay across a snapshot.
ghost use Rattle.std.specs.Prelude.{◌≡◌, ℕ, ◌&&◌, not, filter};
ghost use Rattle.window_snapshot.specs.Mask.{is_channel, mask_has};
ghost use Rattle.window_snapshot.specs.MaskOf.{mask_of};
ghost use Rattle.window_snapshot.specs.Named.{is_shown_on};
ghost use Rattle.routing_rules.specs.Scene.{stays};

use window_snapshot::{Snapshot, Window, mask_has, mask_with};

/// The mask of the windows that stay: the next snapshot lists them, and on the same display as the one before if that
/// listed them too.
pub(crate) fn staying(before: &Snapshot, next: &Snapshot) -> u64
    ensures { (c : ℕ) → mask_has result c ≡ (is_channel c && stays before.now next.now c) }
{
    next.names() & !missed(before.windows(), next)
}

/// The mask of those windows that the next snapshot does not list on the same display.
fn missed(before: &[Window], next: &Snapshot) -> u64
    ensures { result
        ≡ mask_of (filter (λ v. not (is_channel v.channel && is_shown_on next.now v.display v.channel)) before.now) }
{
    before
        .iter()
        .filter(|window| !is_there(next, window))
        .fold(0, |mask, window| mask_with(mask, window.channel))
}

/// Whether the next snapshot has a window of this channel on its display.
fn is_there(next: &Snapshot, window: &Window) -> bool
    ensures { result ≡ (is_channel window.now.channel && is_shown_on next.now window.now.display window.now.channel) }
{
    mask_has(next.on(window.display), window.channel)
}
