//! From the raw events of devices to what the dispatcher accepts from them.
//!
//! The events of a touch device come in packets, each ended by a SYN_REPORT. The packet
//!
//! ```text
//! ABS_MT_TRACKING_ID 45, ABS_MT_POSITION_X 540, ABS_MT_POSITION_Y 1200, SYN_REPORT
//! ```
//!
//! gives a motion `Down` of pointer 0 at (540, 1200). If the next packet is
//!
//! ```text
//! ABS_MT_TOOL_TYPE MT_TOOL_PALM, SYN_REPORT
//! ```
//!
//! the finger was a palm: the packet gives a `Cancel` of pointer 0, and the contact gives nothing more while its
//! tracking id stays. A device with keys waits for no SYN_REPORT: with the layout line `key 115 VOLUME_UP` an EV_KEY of
//! code 115 and value 1 gives at once that key 24 goes down. A SYN_DROPPED reports that events were lost: the device
//! gives a `Reset`, everything known about it is forgotten, and the events up to the next SYN_REPORT are skipped.
//!
//! A touch device is read in three steps, each a module of its own. [`slot_accumulator`] keeps what the events of a
//! packet say about its slots, [`pointer_ids`] gives each contact a pointer id, and [`touch_mapper`] makes motions from
//! what changed since the packet before.
//!
//! `Readers` has the readers of all devices of a recording and takes one event at a time; `cook` takes a whole
//! recording.
#![tactic(auto)]

mod packets;
pub mod pointer_ids;
mod reader;
mod readers;
mod recording;
pub mod slot_accumulator;
mod touch;
pub mod touch_mapper;

pub use packets::is_drop;
pub use reader::DeviceReader;
pub use readers::Readers;
pub use recording::cook;
