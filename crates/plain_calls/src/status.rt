//! The statuses that the calls return.

/// The call succeeded.
pub const OK: u32 = 0;

/// The handle is free. Nothing changed.
pub const FREE: u32 = 1;

/// The handle is not free. Nothing changed.
pub const TAKEN: u32 = 2;

/// Out of memory. Nothing changed, unless a call says otherwise.
pub const MEMORY: u32 = 3;

/// A number is out of its range. Nothing changed.
pub const RANGE: u32 = 4;

/// The message is not allowed where it came. The judge stays as it was.
pub const BROKEN: u32 = 5;

/// There is no room for the whole result. Its length is returned, and the front of a text, but no element of a list.
pub const ROOM: u32 = 6;

/// The client is not open, or no longer open. Nothing changed.
pub const NOT_OPEN: u32 = 8;

/// 64 clients are open. Nothing changed.
pub const FULL: u32 = 9;

/// There is nothing to return: no message, no time, no client. Nothing changed.
pub const NOTHING: u32 = 10;

/// The client did not receive the message, or finished it already. Only the clock changed.
pub const UNKNOWN_SEQ: u32 = 11;

/// No spy of the client is among the windows shown. Only the clock changed.
pub const NOT_SPY: u32 = 12;

/// The spy holds no pointer of the device. Only the clock changed.
pub const NOTHING_HELD: u32 = 13;

/// The device is not plugged in. Nothing changed.
pub const NO_DEVICE: u32 = 14;

/// Some args do not fit what their device did before, and were not accepted; the others were dispatched.
pub const INCONSISTENT: u32 = 15;

/// Out of memory after the args were accepted: they wait for a call that has the memory.
pub const WAITS: u32 = 16;

/// There are more than 64 windows, or a display has no free device number. Nothing changed.
pub const TOO_MANY: u32 = 17;

/// A client has two windows. Nothing changed.
pub const TWICE: u32 = 18;

/// A touch device has 1 to 16 slots. Nothing changed.
pub const BAD_SLOTS: u32 = 19;

/// The text is not a key layout. Nothing changed, and its first refused line is returned.
pub const BAD_LAYOUT: u32 = 20;

/// The words are those of `race`, which starts threads. Nothing ran.
pub const NO_THREADS: u32 = 21;

/// The client has no window now. Nothing changed.
pub const NOT_SHOWN: u32 = 22;

/// A finger with this touch id is down on the panel. Nothing changed.
pub const IS_DOWN: u32 = 23;

/// No finger with this touch id is down on the panel. Nothing changed.
pub const NOT_DOWN: u32 = 24;

/// As many fingers as the panel has slots are down on it. Nothing changed.
pub const MANY_FINGERS: u32 = 25;
