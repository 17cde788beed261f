//! Proved facts about cancels. The function has the laws as its clauses, and does nothing.
ghost use Rattle.dispatcher.specs.CancelSynthesis.Laws.{PointersEnd, KeysEnd, DeviceKeysEnd, CancelsLaw, TracksLaw};

/// Cancels are what the routing rules send to a window, and what they end is gone once they are tracked.
pub fn cancelling()
    ensures pointers { PointersEnd }
    ensures keys { KeysEnd }
    ensures device_keys { DeviceKeysEnd }
    ensures rules { CancelsLaw }
{}

/// If the tracked pointers of a window are what it holds, at the positions of the last motion, they are so again once
/// what it is sent at a step is tracked.
pub fn tracking()
    ensures { TracksLaw }
{}
