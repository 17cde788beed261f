//! One window of a snapshot.
ghost use Rattle.std.specs.Prelude.{◌≡◌, IfOk};

use crate::flags::WindowFlags;
use crate::mask::is_channel;
use crate::occlusion::{Occlusion, Percent};
use crate::reach::{Reach, wall_on};
use bitflags::Flags;
use input_types::DisplayId;
use std::alloc::AllocError;
use touch_region::{Rect, Region};

/// One window of a snapshot.
#[derive(Drop)]
pub struct Window {
    /// The channel by which the window's owner is sent what the window gets, 1 to 64. A wall, a window of nobody, has
    /// the number `wall_on(display)` in its place.
    pub channel: u32,
    /// The display that it is on. Its pixels are those of this display.
    pub display: DisplayId,
    /// Where the window is, in display pixels. Its left and top edges are the origin of what the window is sent. The
    /// whole frame says where the window lies over windows of other owners.
    pub frame: Rect,
    /// Where the window can be touched, in display pixels.
    pub region: Region,
    /// What it asks of the dispatcher.
    pub flags: WindowFlags,
    /// Whose it is, as any number. Windows of one owner trust each other.
    pub owner: u32,
    /// How much it hides of what is behind it.
    pub opacity: Percent,
    /// Whether a touch may go through it to a window of another owner.
    pub occlusion: Occlusion,
}

impl Window {
    ghost use Rattle.window_snapshot.specs.Walls.{is_wall, reaches};
    ghost use Rattle.window_snapshot.specs.Window.{is_spy, is_touchable, is_focusable, watches_outside, is_slippery, prevents_splitting, is_trusted_overlay, is_hit};

    /// Whether it is a wall of its display: a window of nobody.
    pub fn is_wall(&self) -> bool
        ensures { result ≡ is_wall self.now }
    {
        self.channel == wall_on(self.display)
    }

    /// Whether it has the flag SPY. A wall is no spy.
    pub fn is_spy(&self) -> bool
        ensures { result ≡ is_spy self.now }
    {
        is_channel(self.channel) && self.flags.contains(WindowFlags::SPY)
    }

    /// Whether it does not have the flag NOT_TOUCHABLE.
    pub fn is_touchable(&self) -> bool
        ensures { result ≡ is_touchable self.now }
    {
        !self.flags.contains(WindowFlags::NOT_TOUCHABLE)
    }

    /// Whether it does not have the flag NOT_FOCUSABLE.
    pub fn is_focusable(&self) -> bool
        ensures { result ≡ is_focusable self.now }
    {
        !self.flags.contains(WindowFlags::NOT_FOCUSABLE)
    }

    /// Whether it has the flag WATCH_OUTSIDE_TOUCH. A wall does not watch.
    pub fn watches_outside(&self) -> bool
        ensures { result ≡ watches_outside self.now }
    {
        is_channel(self.channel) && self.flags.contains(WindowFlags::WATCH_OUTSIDE_TOUCH)
    }

    /// Whether it has the flag SLIPPERY.
    pub fn is_slippery(&self) -> bool
        ensures { result ≡ is_slippery self.now }
    {
        self.flags.contains(WindowFlags::SLIPPERY)
    }

    /// Whether it has the flag PREVENT_SPLITTING. A wall does not prevent it.
    pub fn prevents_splitting(&self) -> bool
        ensures { result ≡ prevents_splitting self.now }
    {
        is_channel(self.channel) && self.flags.contains(WindowFlags::PREVENT_SPLITTING)
    }

    /// Whether it has the flag TRUSTED_OVERLAY.
    pub fn is_trusted_overlay(&self) -> bool
        ensures { result ≡ is_trusted_overlay self.now }
    {
        self.flags.contains(WindowFlags::TRUSTED_OVERLAY)
    }

    /// Whether it can be reached, it is touchable and its region has the point.
    pub fn is_hit(&self, x: i32, y: i32, reach: &Reach) -> bool
        ensures { result ≡ is_hit (reaches reach.now) x y self.now }
    {
        self.is_touchable() && reach.has(self.channel) && self.region.contains(x, y)
    }

    /// An equal window.
    pub fn copy(&self) -> Result<Window, AllocError>
        ensures { IfOk result (λ copied. copied ≡ self.now) }
    {
        let region = self.region.copy()?;
        Ok(Window {
            channel: self.channel,
            display: self.display,
            frame: self.frame,
            region,
            flags: self.flags,
            owner: self.owner,
            opacity: self.opacity,
            occlusion: self.occlusion,
        })
    }
}
