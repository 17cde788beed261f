//! The session of a workload.
ghost use Rattle.std.specs.Prelude.{◌≡◌, [], ◌∷◌, IfOk};
ghost use Rattle.touch_region.specs.Rectangle.{is_ordered};
ghost use Rattle.std.specs.Prelude.{true, map, length};
ghost use Rattle.session_plan.specs.Channels.{is_name};
ghost use Rattle.session_plan.specs.Valid.{IsChannel, IsDevice, IsPlan};
ghost use Rattle.std.specs.List.{All};
ghost use Rattle.session_plan.specs.View.{plan_view, channel_view, device_view};
ghost use Rattle.workload_maker.specs.Session.{channel, channels, displays, frame, session, steps, touch_device, window, windows};

use bitflags::Flags;
use input_types::{Axis, DisplayId, Limit, Moment, Rotation};
use key_repeat::Repeats;
use session_plan::{Act, ChannelPlan, DeviceKind, DevicePlan, Display, Plan, Step};
use std::alloc::{AllocError, Global};
use touch_region::{Rect, Region};
use window_snapshot::{Occlusion, Percent, Snapshot, Window, WindowFlags};

/// The session that the events of a workload belong to.
pub(crate) fn session(alloc: Global) -> Result<Plan, AllocError>
    ensures value { IfOk result (λ p. plan_view p ≡ session) }
    ensures valid { IfOk result IsPlan }
{
    let displays = displays(alloc)?;
    let devices = devices(alloc)?;
    let channels = channels(alloc)?;
    let steps = steps(alloc)?;
    Ok(Plan {
        displays,
        devices,
        channels,
        steps,
        end: Moment::zero(),
        repeats: Some(Repeats::android()),
    })
}

/// The display.
fn displays(alloc: Global) -> Result<Vec<Display>, AllocError>
    ensures { IfOk result (λ v. v.items ≡ displays) }
{
    let display = Display {
        width: 1080,
        height: 2400,
        rotation: Rotation::R0,
    };
    Vec::from_slice(alloc, &[display])
}

/// The devices: only the touch device.
fn devices(alloc: Global) -> Result<Vec<DevicePlan>, AllocError>
    ensures value { IfOk result (λ v. map device_view v.items ≡ touch_device ∷ []) }
    ensures len { IfOk result (λ v. length v.items ≡ 1) }
    ensures valid { IfOk result (λ v. All (IsDevice 1) v.items) }
{
    let mut devices = Vec::with_capacity(alloc, 1)?;
    devices.push(touch_device(alloc)?)?;
    Ok(devices)
}

/// The touch device.
fn touch_device(alloc: Global) -> Result<DevicePlan, AllocError>
    ensures value { IfOk result (λ d. device_view d ≡ touch_device) }
    ensures valid { IfOk result (λ d. IsDevice 1 d) }
{
    Ok(DevicePlan {
        path: String::from_str(alloc, "/dev/input/event0")?,
        kind: DeviceKind::Touch {
            slots: 16,
            x: Axis { min: 0, max: 1079 },
            y: Axis { min: 0, max: 2399 },
            display: DisplayId::zero(),
        },
    })
}

/// The steps: the windows are there from the beginning.
fn steps(alloc: Global) -> Result<Vec<Step>, AllocError>
    ensures { IfOk result (λ v. v.items ≡ steps) }
{
    let mut steps = Vec::with_capacity(alloc, 1)?;
    steps.push(Step {
        at: Moment::zero(),
        lane: 1,
        act: Act::Windows(snapshot(alloc)?),
    })?;
    Ok(steps)
}

/// The channels, in the order of their ids.
fn channels(alloc: Global) -> Result<Vec<ChannelPlan>, AllocError>
    ensures value { IfOk result (λ v. map channel_view v.items ≡ channels) }
    ensures len { IfOk result (λ v. length v.items ≡ 5) }
    ensures valid { IfOk result (λ v. All IsChannel v.items) }
{
    let mut channels = Vec::with_capacity(alloc, 5)?;
    channels.push(channel(alloc, "nw")?)?;
    channels.push(channel(alloc, "ne")?)?;
    channels.push(channel(alloc, "sw")?)?;
    channels.push(channel(alloc, "se")?)?;
    channels.push(channel(alloc, "spy")?)?;
    Ok(channels)
}

/// A channel with this name.
fn channel(alloc: Global, name: &str) -> Result<ChannelPlan, AllocError>
    requires { is_name name.now ≡ true }
    ensures value { IfOk result (λ c. channel_view c ≡ channel name.now) }
    ensures valid { IfOk result IsChannel }
{
    Ok(ChannelPlan {
        name: String::from_str(alloc, name)?,
        limit: Limit::new(5_000_000).unwrap(),
        finish_after: 0,
        finishes: true,
    })
}

/// The windows, front to back.
fn snapshot(alloc: Global) -> Result<Snapshot, AllocError>
    ensures { IfOk result (λ s. s ≡ windows) }
{
    let mut windows = Vec::with_capacity(alloc, 5)?;
    windows.push(window(alloc, 5, WindowFlags::SPY, frame(0, 0, 1080, 1200))?)?;
    windows.push(window(alloc, 1, WindowFlags::empty(), frame(0, 0, 540, 1200))?)?;
    windows.push(window(alloc, 2, WindowFlags::empty(), frame(540, 0, 1080, 1200))?)?;
    windows.push(window(alloc, 3, WindowFlags::empty(), frame(0, 1200, 540, 2400))?)?;
    windows.push(window(alloc, 4, WindowFlags::empty(), frame(540, 1200, 1080, 2400))?)?;
    match Snapshot::new(windows) {
        Ok(snapshot) => Ok(snapshot),
        Err(_) => unreachable!(),
    }
}

/// The rectangle with these edges.
fn frame(left: u16, top: u16, right: u16, bottom: u16) -> Rect
    ensures { result ≡ frame left top right bottom }
{
    Rect {
        left: i32::from(left),
        top: i32::from(top),
        right: i32::from(right),
        bottom: i32::from(bottom),
    }
}

/// The window of a channel, which is touched in its whole frame.
fn window(
    alloc: Global,
    channel: u32,
    flags: WindowFlags,
    frame: Rect,
) -> Result<Window, AllocError>
    requires { is_ordered frame ≡ true }
    ensures { IfOk result (λ w. w ≡ window channel flags.bits frame) }
{
    let rects = Vec::from_slice(alloc, &[frame])?;
    match Region::new(rects) {
        Ok(region) => Ok(Window {
            channel,
            display: DisplayId::zero(),
            frame,
            region,
            flags,
            owner: 0,
            opacity: Percent::whole(),
            occlusion: Occlusion::Block,
        }),
        Err(_) => unreachable!(),
    }
}
