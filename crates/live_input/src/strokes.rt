//! What a panel of slots says of a finger.
ghost use Rattle.std.specs.Prelude.{◌≡◌, ◌%◌, ◌^◌, ◌<◌, pos, negsuc, [], ◌∷◌};
ghost use Rattle.live_input.specs.Strokes.{report, said, slot_is, tool_is, tracking_is, x_is, y_is};

use input_types::{DeviceId, Moment};
use raw_events::RawEvent;
use raw_events::codes::{
    ABS_MT_POSITION_X, ABS_MT_POSITION_Y, ABS_MT_SLOT, ABS_MT_TOOL_TYPE, ABS_MT_TRACKING_ID,
    EV_ABS, EV_SYN, MT_TOOL_PALM, SYN_REPORT,
};

/// What is said of a device: an event, without its device and its time.
#[derive(Clone, Copy, Debug, PartialEq, Eq)]
pub(crate) struct Stroke {
    pub(crate) kind: u16,
    pub(crate) code: u16,
    pub(crate) value: i32,
}

/// What is said of a device at a time, as an event.
pub(crate) fn said(now: Moment, device: DeviceId, stroke: &Stroke) -> RawEvent
    ensures { result ≡ said device now stroke.now }
{
    RawEvent {
        device,
        moment: now,
        kind: stroke.kind,
        code: stroke.code,
        value: stroke.value,
    }
}

/// A finger begins in a slot, with the tracking id of this count, at a position.
pub(crate) fn down_strokes(slot: usize, count: u32, x: i32, y: i32) -> [Stroke; 5]
    requires { slot < 16 }
    ensures { result ≡ slot_is slot ∷ tracking_is (pos (count % 2 ^ 31)) ∷ tool_is 0 ∷ x_is x ∷ y_is y ∷ [] }
{
    [
        slot_is(slot),
        tracking_is((count % 2_147_483_648) as i32),
        tool_is(0),
        x_is(x),
        y_is(y),
    ]
}

/// The finger in a slot is at a position.
pub(crate) fn motion_strokes(slot: usize, x: i32, y: i32) -> [Stroke; 3]
    requires { slot < 16 }
    ensures { result ≡ slot_is slot ∷ x_is x ∷ y_is y ∷ [] }
{
    [slot_is(slot), x_is(x), y_is(y)]
}

/// The finger in a slot goes up.
pub(crate) fn up_strokes(slot: usize) -> [Stroke; 2]
    requires { slot < 16 }
    ensures { result ≡ slot_is slot ∷ tracking_is (negsuc 0) ∷ [] }
{
    [slot_is(slot), tracking_is(-1)]
}

/// The finger in a slot is a palm, and the packet ends.
pub(crate) fn cancel_strokes(slot: usize) -> [Stroke; 3]
    requires { slot < 16 }
    ensures { result ≡ slot_is slot ∷ tool_is 2 ∷ report ∷ [] }
{
    [slot_is(slot), tool_is(MT_TOOL_PALM), report()]
}

/// What follows is about this slot.
fn slot_is(slot: usize) -> Stroke
    requires { slot < 16 }
    ensures { result ≡ slot_is slot }
{
    of_axis(ABS_MT_SLOT, slot as i32)
}

/// A contact begins or ends.
fn tracking_is(tracking: i32) -> Stroke
    ensures { result ≡ tracking_is tracking }
{
    of_axis(ABS_MT_TRACKING_ID, tracking)
}

/// The contact is a finger or a palm.
fn tool_is(tool: i32) -> Stroke
    ensures { result ≡ record { kind = 3; code = 55; value = tool } }
{
    of_axis(ABS_MT_TOOL_TYPE, tool)
}

/// The contact has this x.
fn x_is(x: i32) -> Stroke
    ensures { result ≡ x_is x }
{
    of_axis(ABS_MT_POSITION_X, x)
}

/// The contact has this y.
fn y_is(y: i32) -> Stroke
    ensures { result ≡ y_is y }
{
    of_axis(ABS_MT_POSITION_Y, y)
}

/// The value of an axis.
fn of_axis(code: u16, value: i32) -> Stroke
    ensures { result ≡ record { kind = 3; code = code; value = value } }
{
    Stroke {
        kind: EV_ABS,
        code,
        value,
    }
}

/// The packet ends.
pub(crate) fn report() -> Stroke
    ensures { result ≡ report }
{
    Stroke {
        kind: EV_SYN,
        code: SYN_REPORT,
        value: 0,
    }
}
