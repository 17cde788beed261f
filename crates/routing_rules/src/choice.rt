//! The window that is chosen for a pointer that goes down, and why.

/// The row of the table of the choice by which a window is chosen. A holder is a window without SPY that holds some
/// pointer of the device; the touched window is the one under the pointer.
#[derive(Clone, Copy, Debug, PartialEq, Eq)]
pub enum Row {
    /// There is no holder: the touched window is chosen, if there is one.
    First,
    /// Some holder prevents splitting: the earliest such holder is chosen.
    Unsplit,
    /// Nothing is touched: the earliest holder is chosen.
    Nothing,
    /// The touched window prevents splitting and holds nothing of the device: the earliest holder is chosen.
    Whole,
    /// None of these: the touched window is chosen.
    Split,
}

/// The channel of the chosen window, and the row that chose it. It is None only in the row `First`, if nothing is
/// touched.
#[derive(Clone, Copy, Debug, PartialEq, Eq)]
pub struct Choice {
    pub window: Option<u32>,
    pub row: Row,
}
