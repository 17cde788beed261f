//! The list of the windows on the display, and what it says of a channel.
ghost use Rattle.std.specs.Prelude.{◌≡◌, ℕ, ◌&&◌, ◌==◌, [], IfOk, filter};

use crate::flags::WindowFlags;
use crate::mask::{is_channel, mask_with};
use crate::window::Window;
use input_types::{DisplayId, Pixel};
use std::alloc::{AllocError, Global};
use std::marker::Model;

/// How many windows a snapshot has at most.
pub const MAX_WINDOWS: usize = 64;

/// The windows on the displays at one time, front to back.
///
/// Contracts see the list of its windows, the front one first. There are at most 64, no two of one channel; any
/// number of them are walls.
#[derive(Drop)]
pub struct Snapshot {
    windows: Vec<Window>,
}

impl Model for Snapshot {
    ghost use Rattle.std.specs.Prelude.{List};
    ghost use Rattle.window_snapshot.specs.declared.window.Window.{Window};
    ghost use Rattle.window_snapshot.specs.WindowList.{IsSnapshot};

    ghost Value = { List Window };

    ghost view = { λ s. s.windows.items };

    ghost invariant = { λ s. IsSnapshot s.windows.items };
}

/// Why a list of windows is no snapshot.
#[derive(Clone, Copy, PartialEq, Eq, Debug)]
pub enum SnapshotError {
    /// More than 64 windows.
    TooMany,
    /// A window has the channel of one before it; no window in front of it has.
    Twice {
        /// That channel.
        channel: u32,
    },
    /// No memory. A snapshot that is nothing but the list it was made from asks for none.
    Memory,
}

impl Snapshot {
    ghost use Rattle.window_snapshot.specs.Mask.{is_channel, mask_has};
    ghost use Rattle.window_snapshot.specs.Named.{is_named, is_shown_on, is_focusable_on, place_of, flags_of, origin_of, display_of};
    ghost use Rattle.window_snapshot.specs.Snapshot.{snapshot_of};
    ghost use Rattle.window_snapshot.specs.WindowList.{IsSnapshot};

    /// The snapshot without windows.
    pub fn empty(alloc: Global) -> Snapshot
        ensures { result ≡ [] }
    {
        Snapshot {
            windows: Vec::new(alloc),
        }
    }

    /// The snapshot of these windows, front to back. More than 64 are refused before any of them is looked at; then the
    /// first whose channel stands before is refused. Walls have no channel, so there may be any number of them.
    pub fn new(windows: Vec<Window>) -> Result<Snapshot, SnapshotError>
        ensures { result ≡ snapshot_of windows.items }
    {
        if windows.len() > MAX_WINDOWS {
            return Err(SnapshotError::TooMany);
        }
        match first_twice(&windows) {
            Some(channel) => Err(SnapshotError::Twice { channel }),
            None => Ok(Snapshot { windows }),
        }
    }

    /// An equal snapshot.
    pub fn copy(&self) -> Result<Snapshot, AllocError>
        ensures { IfOk result (λ copied. copied ≡ self.now) }
    {
        let windows = copies(*self.windows.allocator(), &self.windows)?;
        Ok(Snapshot { windows })
    }

    /// The windows, front to back.
    pub fn windows(&self) -> &[Window]
        ensures windows { result.now ≡ self.now }
        ensures valid { IsSnapshot self.now }
    {
        &self.windows
    }

    /// The list that the snapshot was made from.
    pub fn into_windows(self) -> Vec<Window>
        ensures { result.items ≡ self }
    {
        let Snapshot { windows } = self;
        windows
    }

    /// The mask of the channels that it lists.
    pub fn names(&self) -> u64
        ensures { (c : ℕ) → mask_has result c ≡ (is_channel c && is_named self.now c) }
    {
        names(&self.windows)
    }

    /// The mask of the channels that it lists with a window on this display.
    pub fn on(&self, display: DisplayId) -> u64
        ensures { (c : ℕ) → mask_has result c ≡ (is_channel c && is_shown_on self.now display c) }
    {
        shown_on(&self.windows, display)
    }

    /// The mask of the channels that it lists with a window on this display that may have the focus.
    pub fn focusable(&self, display: DisplayId) -> u64
        ensures { (c : ℕ) → mask_has result c ≡ (is_channel c && is_focusable_on self.now display c) }
    {
        focusable_on(&self.windows, display)
    }

    /// How many windows stand in front of the channel's window; `None` if it lists no such channel.
    pub fn place_of(&self, channel: u32) -> Option<u32>
        ensures { result ≡ place_of self.now channel }
    {
        match place_in(&self.windows, channel) {
            Some(place) => Some(place as u32),
            None => None,
        }
    }

    /// The flags of the channel's window; `None` if it lists no such channel.
    pub fn flags_of(&self, channel: u32) -> Option<WindowFlags>
        ensures { result ≡ flags_of self.now channel }
    {
        match window_in(&self.windows, channel) {
            Some(window) => Some(window.flags),
            None => None,
        }
    }

    /// The display of the channel's window; `None` if it lists no such channel.
    pub fn display_of(&self, channel: u32) -> Option<DisplayId>
        ensures { result ≡ display_of self.now channel }
    {
        match window_in(&self.windows, channel) {
            Some(window) => Some(window.display),
            None => None,
        }
    }

    /// The left top corner of the frame of the channel's window, in display pixels; `None` if it lists no such channel.
    pub fn origin_of(&self, channel: u32) -> Option<Pixel>
        ensures { result ≡ origin_of self.now channel }
    {
        match window_in(&self.windows, channel) {
            Some(window) => Some(Pixel {
                x: window.frame.left,
                y: window.frame.top,
            }),
            None => None,
        }
    }
}

ghost use Rattle.std.specs.Option.{option_copied};
ghost use Rattle.window_snapshot.specs.Named.{is_named, window_of, place_of};
ghost use Rattle.window_snapshot.specs.WindowList.{first_twice};
ghost use Rattle.window_snapshot.specs.MaskOf.{mask_of};
ghost use Rattle.window_snapshot.specs.Window.{is_focusable};

/// The channel of the first window whose channel stands before.
fn first_twice(windows: &[Window]) -> Option<u32>
    ensures { result ≡ first_twice windows.now }
{
    for (i, window) in windows.iter().enumerate() {
        if is_channel(window.channel) && is_named(windows.split_at(i).0, window.channel) {
            return Some(window.channel);
        }
    }
    None
}

/// Whether a window is of the channel.
fn is_named(windows: &[Window], channel: u32) -> bool
    ensures { result ≡ is_named windows.now channel }
{
    windows.iter().any(|window| window.channel == channel)
}

/// The place of the channel's window.
pub(crate) fn place_in(windows: &[Window], channel: u32) -> Option<usize>
    ensures { result ≡ place_of windows.now channel }
{
    windows.iter().position(|window| window.channel == channel)
}

/// The channel's window.
pub(crate) fn window_in(windows: &[Window], channel: u32) -> Option<&Window>
    ensures { option_copied result ≡ window_of windows.now channel }
{
    windows.iter().find(|window| window.channel == channel)
}

/// The mask of the windows' channels.
fn names(windows: &[Window]) -> u64
    ensures { result ≡ mask_of windows.now }
{
    windows
        .iter()
        .fold(0, |mask, window| mask_with(mask, window.channel))
}

/// The mask of the channels of the windows on a display.
fn shown_on(windows: &[Window], display: DisplayId) -> u64
    ensures { result ≡ mask_of (filter (λ w. w.display == display) windows.now) }
{
    windows
        .iter()
        .filter(|window| window.display == display)
        .fold(0, |mask, window| mask_with(mask, window.channel))
}

/// The mask of the channels of the windows on a display that may have the focus.
fn focusable_on(windows: &[Window], display: DisplayId) -> u64
    ensures { result ≡ mask_of (filter (λ w. w.display == display && is_focusable w) windows.now) }
{
    windows
        .iter()
        .filter(|window| window.display == display && window.is_focusable())
        .fold(0, |mask, window| mask_with(mask, window.channel))
}

/// Equal windows, in the same order.
fn copies(alloc: Global, windows: &[Window]) -> Result<Vec<Window>, AllocError>
    ensures { IfOk result (λ copied. copied.items ≡ windows.now) }
{
    let mut copied = Vec::with_capacity(alloc, windows.len())?;
    for window in windows {
        copied.push(window.copy()?)?;
    }
    Ok(copied)
}
