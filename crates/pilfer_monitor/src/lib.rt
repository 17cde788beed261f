//! A spy takes the pointers of a device that it holds from all other windows.
//!
//! The spy, window 1, holds the pointers {0, 2}, and window 2 holds {0, 1, 2}. The spy pilfers: window 2 loses {0, 2}
//! and keeps {1}, and window 1 is pilfering from then on. A table keeps what each window lost, so that it can be sent
//! the cancels.
#![tactic(auto)]

mod losses;
mod monitor;

pub use losses::Losses;
pub use monitor::pilfer;
