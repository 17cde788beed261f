//! The focus of each display, and how it changes.
ghost use Rattle.std.specs.Prelude.{◌≡◌, ◌<◌, ℕ, None, replicate};
ghost use Rattle.focus_resolver.specs.Resolver.{after_request, focus_if, focus_of, is_at, is_focused, target_of};
ghost use Rattle.focus_resolver.specs.Changes.{IsOnlyIn};
ghost use Rattle.window_snapshot.specs.Mask.{mask_has};

use input_types::DisplayId;
use std::marker::Model;
use window_snapshot::{mask_has, mask_with};

/// The channels that may have the focus of each display: live channels that have a window on it that may have the
/// focus. Bit `id - 1` of a mask stands for the channel `id`.
#[derive(Clone, Copy, Debug, PartialEq, Eq)]
pub struct Focusable {
    /// The masks of the displays 0 to 3.
    pub masks: [u64; 4],
}

/// How a step changed the focus.
#[derive(Clone, Copy, Debug, PartialEq, Eq)]
pub struct Change {
    /// The mask of the channels that were focused on some display, and now are on none.
    pub lost: u64,
    /// The mask of those that were focused on no display, and now are on some.
    pub gained: u64,
    /// The channel that keys go to after the step.
    pub target: Option<u32>,
}

/// Which channel has the focus of each display, and to which of them keys go. The focus of a display is at the
/// channel last requested for it, if that may have it; keys go to the focus of the display of the last request that
/// took them along, or of display 0 before there was one.
#[derive(Clone, Copy, Debug)]
pub struct Focus {
    requested: [Option<u32>; 4],
    last: DisplayId,
    focusable: Focusable,
}

impl Model for Focus {
    ghost use Rattle.std.specs.Prelude.{◌≡◌};
    ghost use Rattle.focus_resolver.specs.Resolver.{FocusState};

    ghost Value = { FocusState };

    ghost view = { λ f. record { requested = f.requested; last = f.last; focusable = f.focusable.masks } };

    ghost inverse = { λ s. record {
      requested = s.requested;
      last = s.last;
      focusable = record { masks = s.focusable };
    } };
}

/// The requested channel, if it is in the mask of those that may have the focus.
fn focus_if(requested: Option<u32>, focusable: u64) -> Option<u32>
    ensures { result ≡ focus_if (mask_has focusable) requested }
{
    match requested {
        Some(channel) if mask_has(focusable, channel) => Some(channel),
        _ => None,
    }
}

/// The focus of one display as a mask.
fn focus_mask(requested: Option<u32>, focusable: u64) -> u64
    ensures { (c : ℕ) → mask_has result c ≡ is_at (focus_if (mask_has focusable) requested) c }
{
    match focus_if(requested, focusable) {
        Some(channel) => mask_with(0, channel),
        None => 0,
    }
}

impl Focus {
    /// Nothing was requested, and no channel may have the focus.
    pub fn new() -> Focus
        ensures { result ≡ record { requested = replicate 4 None; last = 0; focusable = replicate 4 0 } }
    {
        Focus {
            requested: [None; 4],
            last: DisplayId::zero(),
            focusable: Focusable { masks: [0; 4] },
        }
    }

    /// The channel that has the focus of a display.
    pub fn current(&self, display: DisplayId) -> Option<u32>
        ensures { result ≡ focus_of self.now display }
    {
        let place = usize::from(display.get());
        focus_if(self.requested[place], self.focusable.masks[place])
    }

    /// The channel that keys go to.
    pub fn target(&self) -> Option<u32>
        ensures { result ≡ target_of self.now }
    {
        let place = usize::from(self.last.get());
        focus_if(self.requested[place], self.focusable.masks[place])
    }

    /// Requests the focus of a display for a channel, or for none. Any number may be requested. If `keys` is set, keys
    /// go to the focus of this display from now on.
    pub fn request(&mut self, display: DisplayId, channel: Option<u32>, keys: bool) -> Change
        ensures state { self.new ≡ after_request display channel keys self.old }
        ensures lost { IsOnlyIn result.lost (is_focused (focus_of self.old)) (is_focused (focus_of self.new)) }
        ensures gained { IsOnlyIn result.gained (is_focused (focus_of self.new)) (is_focused (focus_of self.old)) }
        ensures target { result.target ≡ target_of self.new }
    {
        let before = self.focused();
        self.requested[usize::from(display.get())] = channel;
        if keys {
            self.last = display;
        }
        self.since(before)
    }

    /// Sets which channels may have the focus.
    pub fn windows(&mut self, focusable: Focusable) -> Change
        ensures state { self.new
            ≡ record { requested = self.old.requested; last = self.old.last; focusable = focusable.masks } }
        ensures lost { IsOnlyIn result.lost (is_focused (focus_of self.old)) (is_focused (focus_of self.new)) }
        ensures gained { IsOnlyIn result.gained (is_focused (focus_of self.new)) (is_focused (focus_of self.old)) }
        ensures target { result.target ≡ target_of self.new }
    {
        let before = self.focused();
        self.focusable = focusable;
        self.since(before)
    }

    /// The mask of the channels that are focused on some display.
    fn focused(&self) -> u64
        ensures { (c : ℕ) → mask_has result c ≡ is_focused (focus_of self.now) c }
    {
        self.mask_on(0) | self.mask_on(1) | self.mask_on(2) | self.mask_on(3)
    }

    /// The focus of one display as a mask.
    fn mask_on(&self, display: usize) -> u64
        requires { display < 4 }
        ensures { (c : ℕ) → mask_has result c ≡ is_at (focus_of self.now display) c }
    {
        focus_mask(self.requested[display], self.focusable.masks[display])
    }

    /// The changes since the channels of this mask were focused.
    fn since(&self, before: u64) -> Change
        ensures lost { IsOnlyIn result.lost (mask_has before) (is_focused (focus_of self.now)) }
        ensures gained { IsOnlyIn result.gained (is_focused (focus_of self.now)) (mask_has before) }
        ensures target { result.target ≡ target_of self.now }
    {
        let after = self.focused();
        Change {
            lost: before & !after,
            gained: after & !before,
            target: self.target(),
        }
    }
}
