//! The dispatcher: it routes what devices hand in to windows, and answers each call as the calls before it say.
//!
//! Window 1 is on the display, and a finger goes down on it. In this order the calls have these replies:
//!
//! ```text
//! Open { terms }                                                Opened(1)
//! Windows { now: 0, snapshot: [1 at [0, 0, 1080, 2400]] }       Done
//! Notify { now: 1000, args: Motion(1 Down 0@540,1200) }         Taken
//! Pump { now: 1000 }                                            Dispatched
//! Receive { channel: 1 }                                        Got(1 1000 Motion(1 Down 0@540,1200))
//! Finish { now: 2000, channel: 1, seq: 1 }                      Done
//! ```
//!
//! A [`Dispatcher`] keeps no history. It keeps the clock and the args that wait; the windows and their origins; who
//! holds which pointers; the channels, with the pointers and keys still down in the stream of each window; the focus;
//! and the last key message. After the Pump above that is
//!
//! ```text
//! queue      clock 1000, nothing waits, and pointer 0 is down on its device
//! shown      the windows of the last snapshot, and the origin of each window
//! touches    window 1 holds pointer 0, since the place of this step
//! channels   channel 1 with one message, the DOWN, and the time at which that is late; in the stream of its window
//!            the pointer is down, at its position on the display
//! focus      who has the focus
//! repeat     no key
//! ```
//!
//! Each table is a module of its own, with the calls that change it: [`inbound`] has the args that wait,
//! [`window_covers`] what lies over the windows that hold pointers, [`dispatch_channels`] the channels, and
//! [`key_tables`] the focus and keys. [`dispatch_round`] sends the windows of one step their messages, and
//! [`dispatch_tables`] says how each step changes the tables. A channel ([`input_channel`]) keeps what its window was
//! sent, [`cancel_synthesis`] what a window must be sent when it loses what it holds, and [`anr_tracker`] when the
//! channel is late.
//!
//! What it keeps stands for a history (`StandsFor` of specs/Dispatching), as the reader of a device stands for its
//! events. The tables are what a legal history says (specs/Knows), and each answered call makes them stand for the same
//! history with that step more. The definitions of the history say what the answer is.
//!
//! Other definitions state the calls in terms of the tables alone: what each is answered (specs/Replying), the no-ops
//! (specs/Staying), the calls of the owners of channels (specs/OwnerLaws), and the calls that send something in a round
//! (specs/Sending). What is read from the tables is what the history says (specs/ReadLaws).
//!
//! Each call is carried out in the same order. It first finds everything that it changes, then makes room for
//! everything that windows are sent, and then makes only calls that cannot fail. So running out of memory changes
//! nothing that can be seen.
#![tactic(auto)]

mod anr;
pub mod anr_tracker;
pub mod cancel_synthesis;
mod cancelled;
mod carry;
pub mod dispatch_channels;
pub mod dispatch_round;
pub mod dispatch_tables;
mod dispatcher;
mod focusing;
pub mod inbound;
pub mod input_channel;
mod key_steps;
pub mod key_tables;
mod motions;
mod outcome;
mod owners;
mod past;
pub mod pointers_by_id;
mod pumping;
mod queueing;
mod reserving;
mod shown;
mod stays;
mod tables;
pub mod window_covers;

pub use dispatcher::Dispatcher;
pub use outcome::Outcome;
