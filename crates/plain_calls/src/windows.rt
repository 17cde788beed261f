//! Windows as C hands them in.
ghost use Rattle.std.specs.Prelude.{◌≡◌, map, IfOk};
ghost use Rattle.plain_calls.specs.Windows.{rect_of, region_from, info_with, info_from, window_from, windows_from, one_from, AreRead, IsRead};
ghost use Rattle.plain_calls.specs.declared.windows.Unread.TheVariants.{Memory};

use crate::client::PlainClient;
use crate::numbers::{display_of, occlusion_of, percent_of};
use input_types::DisplayId;
use live_input::{ClientWindow, WindowInfo};
use std::alloc::{AllocError, AllocFailed, Global};
use touch_region::{Rect, Region, RegionError};
use window_snapshot::{Occlusion, Percent};

/// A rectangle of display pixels: `struct inputflinger_rect`. It contains the points with `left <= x < right` and
/// `top <= y < bottom`.
#[repr(C)]
#[derive(Clone, Copy, Debug)]
pub struct PlainRect {
    pub left: i32,
    pub top: i32,
    pub right: i32,
    pub bottom: i32,
}

/// A window of a client, or of nobody: `struct inputflinger_window`.
#[repr(C)]
#[derive(Clone, Copy, Debug)]
pub struct PlainWindow {
    /// Channel 0 for a wall, a window of nobody.
    pub client: PlainClient,
    /// Its left and top edges are the origin of what the client is sent.
    pub frame: PlainRect,
    /// As `WindowFlags` has them.
    pub flags: u32,
    /// How many of the rectangles handed in with the windows make up the region in which it can be touched.
    pub rects: u32,
    /// 0 to 3.
    pub display: u8,
    /// Ignored. The members up to here are those of the first release.
    pub unused: [u8; 7],
    /// Its owner. Windows of one owner trust each other.
    pub owner: u32,
    /// How much it hides of what is behind it, in per cent.
    pub opacity: u8,
    /// Whether a touch may go through it to a window of another owner: 0 if not, 1 if its opacity decides, and 2 if so.
    pub occlusion: u8,
}

/// Why windows were not read.
#[derive(Clone, Copy, Debug, PartialEq, Eq)]
pub(crate) enum Unread {
    /// A number is out of its range.
    Range,
    /// Out of memory.
    Memory,
}

impl From<AllocError> for Unread {
    ghost from_gives = { λ _ e. e ≡ Memory };

    fn from(_error: AllocError) -> Unread {
        Unread::Memory
    }
}

impl<T: Drop> From<AllocFailed<T>> for Unread {
    ghost from_gives = { λ _ e. e ≡ Memory };

    fn from(_error: AllocFailed<T>) -> Unread {
        Unread::Memory
    }
}

/// A rectangle by its edges.
fn rect_of(rect: &PlainRect) -> Rect
    ensures { result ≡ rect_of rect.now }
{
    Rect {
        left: rect.left,
        top: rect.top,
        right: rect.right,
        bottom: rect.bottom,
    }
}

/// The rectangles by their edges.
fn rects_of(alloc: Global, rects: &[PlainRect]) -> Result<Vec<Rect>, AllocError>
    ensures { IfOk result (λ read. read.items ≡ map rect_of rects.now) }
{
    rects.iter().map(rect_of).collect(alloc)
}

/// The region of rectangles: at most 64, each with its edges in order.
fn region_from(alloc: Global, rects: &[PlainRect]) -> Result<Region, Unread>
    ensures { IsRead result (region_from rects.now) }
{
    match Region::new(rects_of(alloc, rects)?) {
        Ok(region) => Ok(region),
        Err(RegionError::Memory) => Err(Unread::Memory),
        Err(_) => Err(Unread::Range),
    }
}

impl PlainWindow {
    /// The window on a display, with this opacity, occlusion and region, except its client.
    fn with(
        &self,
        display: DisplayId,
        opacity: Percent,
        occlusion: Occlusion,
        region: Region,
    ) -> WindowInfo
        ensures { result ≡ info_with self.now display opacity occlusion region }
    {
        WindowInfo {
            display,
            frame: rect_of(&self.frame),
            region,
            flags: bitflags::Flags::from_bits_retain(self.flags),
            owner: self.owner,
            opacity,
            occlusion,
        }
    }

    /// The window, whose rectangles are these, except its client.
    fn read_info(&self, alloc: Global, rects: &[PlainRect]) -> Result<WindowInfo, Unread>
        ensures { IsRead result (info_from self.now rects.now) }
    {
        let Some(display) = display_of(self.display) else {
            return Err(Unread::Range);
        };
        let Some(opacity) = percent_of(self.opacity) else {
            return Err(Unread::Range);
        };
        let Some(occlusion) = occlusion_of(self.occlusion) else {
            return Err(Unread::Range);
        };
        match region_from(alloc, rects) {
            Ok(region) => Ok(self.with(display, opacity, occlusion, region)),
            Err(error) => Err(error),
        }
    }

    /// The window, whose rectangles are these. One whose client has the channel 0 is a wall.
    fn read(&self, alloc: Global, rects: &[PlainRect]) -> Result<ClientWindow, Unread>
        ensures { IsRead result (window_from self.now rects.now) }
    {
        match self.read_info(alloc, rects) {
            Ok(info) => Ok(ClientWindow {
                client: self.client.read_if_any(),
                info,
            }),
            Err(error) => Err(error),
        }
    }

    /// The window, whose rectangles are the first of these, except its client.
    pub(crate) fn read_one(&self, alloc: Global, rects: &[PlainRect]) -> Result<WindowInfo, Unread>
        ensures { IsRead result (one_from self.now rects.now) }
    {
        let count = self.rects as usize;
        if rects.len() < count {
            return Err(Unread::Range);
        }
        self.read_info(alloc, rects.split_at(count).0)
    }
}

/// The windows, front to back. Each takes as many of the rectangles as it says, after those of the windows before it.
pub(crate) fn read_windows(
    alloc: Global,
    rows: &[PlainWindow],
    rects: &[PlainRect],
) -> Result<Vec<ClientWindow>, Unread>
    ensures { AreRead result (windows_from rows.now rects.now) }
{
    let mut windows = Vec::new(alloc);
    let mut rest = rects;
    for row in rows {
        let count = row.rects as usize;
        if rest.len() < count {
            return Err(Unread::Range);
        }
        windows.push(row.read(alloc, rest.split_at(count).0)?)?;
        rest = rest.split_at(count).1;
    }
    Ok(windows)
}
