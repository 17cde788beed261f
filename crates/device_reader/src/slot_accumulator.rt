//! The slots of a touch device that speaks the kernel's multi-touch protocol B, and the contacts that they hold.
//!
//! A device names a slot by ABS_MT_SLOT and then says what changed in it. The events
//!
//! ```text
//! ABS_MT_SLOT 0, ABS_MT_TRACKING_ID 45, ABS_MT_POSITION_X 100, ABS_MT_POSITION_Y 200
//! ABS_MT_SLOT 1, ABS_MT_TRACKING_ID 46, ABS_MT_POSITION_X 300, ABS_MT_POSITION_Y 400
//! ```
//!
//! leave two contacts: slot 0 with tracking id 45 at (100, 200) and slot 1 with tracking id 46 at (300, 400). What is
//! not written again stays: after ABS_MT_SLOT 0 and ABS_MT_TRACKING_ID -1 slot 0 holds no contact, and a new tracking
//! id in it is at (100, 200) until the device writes another position.
//!
//! A SYN_REPORT ends a packet. A contact whose ABS_MT_TOOL_TYPE is MT_TOOL_PALM there is a palm. It stays one while its
//! tracking id stays, even if the tool type changes: no hand that was taken for a palm turns into a finger.
mod change;
mod contacts;
mod palm_slots;
mod palms;
mod report;
mod slots;

pub use change::Change;
pub use contacts::{Contact, Contacts};
pub use report::is_report;
pub use slots::{Row, Slots};
