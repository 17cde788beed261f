//! The live service, the judge and runs of the program, for C and for languages that call C.
//!
//! A compositor keeps a live service in a handle (`service`). Its calls are those of `plain_calls`:
//!
//! ```text
//! inputflinger_live_new    of a handle whose bytes are 0     0, and the handle has a service
//! inputflinger_live_open                                     0, and the client is generation 1, channel 1
//! inputflinger_live_free                                     0, and the handle is free
//! inputflinger_live_open                                     1: the handle is free
//! ```
//!
//! A window that is sent a well-formed stream sees whole gestures. A toolkit's test shows a judge the messages that a
//! window received, one by one, and learns which one breaks the stream:
//!
//! ```text
//! inputflinger_judge_new   of a handle whose bytes are 0     0, and the handle has a judge
//! inputflinger_judge_step  1 1000 motion 1 DOWN 0:540,1200   0: it may come
//! inputflinger_judge_step  2 2000 motion 1 DOWN 0:540,1200   5, and the fault says 1, held 0b1, reason 2 (AlreadyDown)
//! inputflinger_judge_step  2 2000 motion 1 UP 0:540,1200     0: what was refused changed nothing
//! inputflinger_judge_free                                    0, and the handle is free
//! ```
//!
//! A program that keeps recordings runs one as `inputflinger replay` does, from memory (`plain_run`):
//!
//! ```text
//! inputflinger_run    replay --session 1 --events 2, of two files    0, and the text is in the buffer of the caller
//! ```
//!
//! Each export takes what C can hand in: numbers, structs of numbers, and a handle. A handle owns a block of the C
//! library's allocator, or nothing. The clause of an export says what it returns and what the handle has then, by the
//! definitions of `plain_calls`, `live_input` and `gesture_verifier`. Only `unboxed`, `live_cell` and `judge_cell`
//! contain raw pointers. C must provide what the types say: a pointer that is not null and that nothing else uses
//! during the call, and a handle that these calls made or whose bytes are all 0.
#![tactic(auto)]

mod fault;
mod judge;
mod judge_cell;
mod judge_exports;
mod judge_keys;
mod judge_state;
mod live_asking;
mod live_cell;
mod live_clients;
mod live_driving;
mod live_exports;
mod live_fingers;
mod live_giving;
mod live_keys;
mod live_limited;
mod live_messages;
mod live_next_any;
mod live_plugging;
mod live_showing;
mod live_through;
mod live_window_at;
mod run_exports;
mod service;
mod sizes;
mod unboxed;
