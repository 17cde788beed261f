//! Numbers of the Linux kernel's `input-event-codes.h`: types of events, and codes of each type.

/// Marks in the stream of events.
pub const EV_SYN: u16 = 0x00;

/// Keys and buttons.
pub const EV_KEY: u16 = 0x01;

/// Absolute axes, including those of touch.
pub const EV_ABS: u16 = 0x03;

/// The end of a packet.
pub const SYN_REPORT: u16 = 0;

/// The kernel's buffer ran over: what comes up to the next SYN_REPORT is ignored.
pub const SYN_DROPPED: u16 = 3;

/// The slot that the next events of touch are about.
pub const ABS_MT_SLOT: u16 = 0x2f;

/// The x of a contact in device units.
pub const ABS_MT_POSITION_X: u16 = 0x35;

/// The y of a contact in device units.
pub const ABS_MT_POSITION_Y: u16 = 0x36;

/// What touches: a finger, a pen or a palm.
pub const ABS_MT_TOOL_TYPE: u16 = 0x37;

/// The value of ABS_MT_TOOL_TYPE that says a palm.
pub const MT_TOOL_PALM: i32 = 2;

/// The number of a contact while it lasts; a negative one ends it.
pub const ABS_MT_TRACKING_ID: u16 = 0x39;

/// Whether anything touches the device. Slots say the same, so it is skipped.
pub const BTN_TOUCH: u16 = 0x14a;
