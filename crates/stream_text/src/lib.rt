//! The texts of the service: what windows were sent, and in which order the calls were made.
//!
//! The second message of channel 1 is sent at 2,000 microseconds. It says that pointer 0 moved to (110, 200) while
//! pointer 1 stayed:
//!
//! ```text
//! 2 2000 motion 1 MOVE 0@110,200 1@300,400
//! ```
//!
//! Numbers are decimal without leading zeros, words are separated by one space, and each line ends in a newline. Each
//! message has one spelling: the definitions stand in `specs/Spelling.antt`.
//!
//! An order lists the calls of a run, one a line, after a line that says how many there are: `specs/Order.antt` and
//! `specs/OrderText.antt`.
//!
//! A stream file has the streams of some channels, as any program may write it:
//!
//! ```text
//! channel 1 main
//! 1 2000 motion 1 DOWN 0@110,200
//! 2 4000 motion 1 UP 0@110,200
//! end 1 sent 2 received 2 finished 2
//! ```
//!
//! An order may stand in front of the sections, and ANRs after them. `StreamLines` goes through such a file line by
//! line and takes no memory; `StreamReader` returns its streams.
#![tactic(auto)]

mod order;
mod order_error;
mod order_front;
mod order_line;
mod reading;
mod stream_error;
mod stream_line;
mod writing;

pub use order::{Order, order_text};
pub use order_error::OrderError;
pub use order_line::OrderLine;
pub use reading::stream_file::{StreamChannel, StreamFile, StreamReader};
pub use reading::stream_lines::StreamLines;
pub use stream_error::StreamError;
pub use stream_line::StreamLine;
pub use writing::message::{LineWriter, message_text};
pub use writing::section::{anr_text, channel_line_text, channel_text, end_line_text};
