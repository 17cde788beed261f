//! The files of the commands. Each is read to its end or its limit and judged; a refusal says why.
//!
//! A session is read whole, and so are an order file, a stream file and the recording of `check`, `race` and `hover`.
//! `replay`, `why` and `inspect` read the recording in pieces, and run it ([`Recording`]) or count it ([`Counting`])
//! piece by piece.
//!
//! ```text
//! a session of 5 MiB           too long: session
//! [display] without a width    session: Missing display.width
//! a line `[1.0] key`           recording: BadLine 1
//! ```
#![tactic(auto)]

mod counting;
mod devices;
mod files;
mod inputs;
mod keyed;
mod recording;
mod refusal;
mod taker;

pub use counting::Counting;
pub use devices::{device_number, numbered_devices, readers_of};
pub use files::{ReadError, feed_file, read_file};
pub use inputs::{
    RECORDING_LIMIT, read_events, read_order, read_refusal, read_session, read_stream,
};
pub use keyed::{KeyedPlan, read_keyed_session};
pub use recording::{Recording, cook_event, run_event};
pub use refusal::{Input, OrderError, Refusal, StreamError, Subject};
pub use taker::Taker;
