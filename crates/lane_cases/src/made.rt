//! What the lanes of the cases do: one finger goes down on a window, another beside it, and the first goes up.
ghost use Rattle.std.specs.Prelude.{◌≤◌, IfOk, length};

use bitflags::Flags;
use input_types::{
    Args, DeviceId, DisplayId, Limit, Moment, Motion, MotionAction, Pixel, Pointer, PointerId,
    Pointers,
};
use session_plan::{Act, ChannelPlan, Step};
use std::alloc::Global;
use std::io;
use std::io::ErrorKind;
use touch_region::{Rect, Region};
use window_snapshot::{Occlusion, Percent, Snapshot, Window, WindowFlags};

/// The left half of the display.
const LEFT: Rect = Rect {
    left: 0,
    top: 0,
    right: 540,
    bottom: 2400,
};

/// The right half.
const RIGHT: Rect = Rect {
    left: 540,
    top: 0,
    right: 1080,
    bottom: 2400,
};

/// A channel whose owner finishes messages, with five seconds for each.
pub(crate) fn channel(alloc: Global, name: &str) -> io::Result<ChannelPlan> {
    let Some(limit) = Limit::new(5_000_000) else {
        return Err(ErrorKind::InvalidInput.into());
    };
    Ok(ChannelPlan {
        name: String::from_str(alloc, name)?,
        limit,
        finish_after: 0,
        finishes: true,
    })
}

/// A window of a channel.
fn window(alloc: Global, channel: u32, frame: Rect) -> io::Result<Window> {
    let Ok(region) = Region::new(vec![in alloc; frame]?) else {
        return Err(ErrorKind::OutOfMemory.into());
    };
    Ok(Window {
        channel,
        display: DisplayId::zero(),
        frame,
        region,
        flags: WindowFlags::from_bits_retain(0),
        owner: 0,
        opacity: Percent::whole(),
        occlusion: Occlusion::Block,
    })
}

/// A step that shows the windows of both channels, side by side.
fn show(alloc: Global) -> io::Result<Step> {
    let mut windows = Vec::new(alloc);
    windows.push(window(alloc, 1, LEFT)?)?;
    windows.push(window(alloc, 2, RIGHT)?)?;
    let Ok(snapshot) = Snapshot::new(windows) else {
        return Err(ErrorKind::OutOfMemory.into());
    };
    Ok(Step {
        at: Moment::zero(),
        lane: 1,
        act: Act::Windows(snapshot),
    })
}

/// One script, that shows the windows twice.
pub(crate) fn scripts(alloc: Global) -> io::Result<Vec<Vec<Step>>>
    ensures { IfOk result (λ v. length v.items ≤ 8) }
{
    let mut steps = Vec::new(alloc);
    steps.push(show(alloc)?)?;
    steps.push(show(alloc)?)?;
    let mut scripts = Vec::new(alloc);
    scripts.push(steps)?;
    Ok(scripts)
}

/// A finger at a point.
fn finger(id: u8, x: i32, y: i32) -> io::Result<Pointer> {
    let Some(id) = PointerId::new(id) else {
        return Err(ErrorKind::InvalidInput.into());
    };
    Ok(Pointer {
        id,
        at: Pixel { x, y },
    })
}

/// A motion of device 1.
fn motion(action: MotionAction, index: u8, fingers: &[Pointer]) -> io::Result<Args> {
    let Some(device) = DeviceId::new(1) else {
        return Err(ErrorKind::InvalidInput.into());
    };
    let mut pointers = Pointers::empty();
    for pointer in fingers {
        let Ok(()) = pointers.push(*pointer) else {
            return Err(ErrorKind::InvalidInput.into());
        };
    }
    Ok(Args::Motion(Motion {
        device,
        action,
        index,
        flags: 0,
        pointers,
    }))
}

/// Args at a time.
fn at(moment: u64, args: Args) -> io::Result<(Moment, Args)> {
    let Some(moment) = Moment::new(moment) else {
        return Err(ErrorKind::InvalidInput.into());
    };
    Ok((moment, args))
}

/// The args of the reader.
pub(crate) fn cooked(alloc: Global) -> io::Result<Vec<(Moment, Args)>> {
    let (one, two) = (finger(0, 100, 200)?, finger(1, 700, 400)?);
    let mut all = Vec::new(alloc);
    all.push(at(1_000_000, motion(MotionAction::Down, 0, &[one])?)?)?;
    all.push(at(
        1_010_000,
        motion(MotionAction::PointerDown, 1, &[one, two])?,
    )?)?;
    all.push(at(1_020_000, motion(MotionAction::PointerUp, 0, &[one, two])?)?)?;
    Ok(all)
}
