//! Why calls are refused.

/// Why no client is opened. Nothing changed.
#[derive(Clone, Copy, Debug, PartialEq, Eq)]
pub enum OpenRefused {
    /// 64 clients are open.
    Full,
    /// Out of memory, or out of generations: 2^64 - 1 clients were opened.
    Memory,
}

/// Why a client is not closed.
#[derive(Clone, Copy, Debug, PartialEq, Eq)]
pub enum CloseRefused {
    /// It is not open, or no longer open. Nothing changed.
    NotOpen,
    /// Out of memory. The client is still open, but may have lost its window, its focus requests and messages.
    Memory,
}

/// Why windows are not shown. Nothing changed.
#[derive(Clone, Copy, Debug, PartialEq, Eq)]
pub enum WindowsRefused {
    /// The client of the window at this index, from 0, is not open. It is the first such window.
    NotOpen { place: usize },
    /// More than 64 windows, all of clients that are open.
    TooMany,
    /// A client has two windows.
    Twice { channel: u32 },
    /// Out of memory.
    Memory,
}

/// Why a window is not replaced. Nothing changed.
#[derive(Clone, Copy, Debug, PartialEq, Eq)]
pub enum WindowRefused {
    /// The client is not open, or no longer open.
    NotOpen,
    /// The client has no window now.
    NotShown,
    /// Out of memory.
    Memory,
}

/// Why the focus is not requested. Nothing changed.
#[derive(Clone, Copy, Debug, PartialEq, Eq)]
pub enum FocusRefused {
    /// The client is not open, or no longer open.
    NotOpen,
    /// Out of memory.
    Memory,
}

/// Why a message is not finished. Nothing changed but the clock.
#[derive(Clone, Copy, Debug, PartialEq, Eq)]
pub enum FinishRefused {
    /// The client is not open, or no longer open.
    NotOpen,
    /// The client did not receive the message, or finished it already.
    UnknownSeq,
    /// Out of memory, which happens only if the calls can no longer be counted in 64 bits.
    Memory,
}

/// Why a device is not pilfered. Nothing changed but the clock.
#[derive(Clone, Copy, Debug, PartialEq, Eq)]
pub enum PilferRefused {
    /// The client is not open, or no longer open.
    NotOpen,
    /// No spy of this client is among the windows shown.
    NotSpy,
    /// The spy holds no pointer of the device.
    NothingHeld,
    /// Out of memory.
    Memory,
}

/// Why a device is not plugged in. Nothing changed.
#[derive(Clone, Copy, Debug, PartialEq, Eq)]
pub enum AddRefused {
    /// All numbers of its display are taken.
    TooMany,
    /// A touch device has 1 to 16 slots.
    BadSlots,
}

/// Why what a device gives is not dispatched.
#[derive(Clone, Copy, Debug, PartialEq, Eq)]
pub enum ArgsRefused {
    /// The device is not plugged in. Nothing changed.
    NoDevice,
    /// A part of it does not fit what its device did before, and was not accepted. The rest was dispatched. A device's
    /// own events always fit unless args were handed in for it too.
    Inconsistent,
    /// Out of memory; nothing was accepted. Nothing changed.
    Memory,
    /// Out of memory after it was accepted. It waits in its order, and the next call that has the memory and hands
    /// something in or advances dispatches it.
    Waits,
}

/// Why what a finger does is not taken.
#[derive(Clone, Copy, Debug, PartialEq, Eq)]
pub enum FingerRefused {
    /// A finger with this touch id is down on the panel. Nothing changed.
    IsDown,
    /// No finger with this touch id is down on the panel. Nothing changed.
    NotDown,
    /// As many fingers as the panel has slots are down on it. Nothing changed.
    TooMany,
    /// What its device gives is not dispatched. If memory ran out and nothing waits, the fingers are as before, and the
    /// call can be made again.
    Device(ArgsRefused),
}
