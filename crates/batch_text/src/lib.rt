//! The text of a stream file's messages as an application receives them: successive moves of a device as one motion.
//!
//! A finger goes down at 1000, moves at 2000, 3000 and 9000 and goes up at 9500 microseconds. With a frame every 8000
//! microseconds, the stream file
//!
//! ```text
//! channel 1 main
//! 1 1000 motion 1 DOWN 0@10,10
//! 2 2000 motion 1 MOVE 0@11,10
//! 3 3000 motion 1 MOVE 0@12,10
//! 4 9000 motion 1 MOVE 0@13,10
//! 5 9500 motion 1 UP 0@13,10
//! end 1 sent 5 received 5 finished 5
//! ```
//!
//! gives
//!
//! ```text
//! channel 1
//! one 1
//! batch 2-3 1 2
//! batch 4-4 1 1
//! one 5
//! items 4
//! ```
//!
//! A batch has the numbers of its first and its last move, its device, and how many moves it contains. A file is read
//! line by line, and no message is kept longer than it waits for its frame. Moves wait in rows that keep their room;
//! a released batch has its samples in its own `Vec` until its line is written, so there is one allocation per batch.
#![tactic(auto)]

mod batches;
mod item;
mod section;
mod text;

pub use text::batch_text;
