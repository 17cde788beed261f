//! The events of the panel, in place of those that a kernel gives.
use raw_events::codes::{
    ABS_MT_POSITION_X, ABS_MT_POSITION_Y, ABS_MT_SLOT, ABS_MT_TRACKING_ID, EV_ABS, EV_SYN,
    SYN_REPORT,
};

/// Each event with its moment in microseconds, its type, code and value: a finger goes down on the left, another one on
/// the right, and the first one up.
pub(crate) const EVENTS: &[(u64, u16, u16, i32)] = &[
    (1_000, EV_ABS, ABS_MT_SLOT, 0),
    (1_000, EV_ABS, ABS_MT_TRACKING_ID, 45),
    (1_000, EV_ABS, ABS_MT_POSITION_X, 100),
    (1_000, EV_ABS, ABS_MT_POSITION_Y, 200),
    (1_000, EV_SYN, SYN_REPORT, 0),
    (2_000, EV_ABS, ABS_MT_SLOT, 1),
    (2_000, EV_ABS, ABS_MT_TRACKING_ID, 46),
    (2_000, EV_ABS, ABS_MT_POSITION_X, 700),
    (2_000, EV_ABS, ABS_MT_POSITION_Y, 400),
    (2_000, EV_SYN, SYN_REPORT, 0),
    (3_000, EV_ABS, ABS_MT_SLOT, 0),
    (3_000, EV_ABS, ABS_MT_TRACKING_ID, -1),
    (3_000, EV_SYN, SYN_REPORT, 0),
];
