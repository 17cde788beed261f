//! What may be done next.
ghost use Rattle.std.specs.Prelude.{◌≡◌};
ghost use Rattle.schedule.specs.DueView.{sooner_due};

use input_types::Moment;

/// Something that may be done next.
#[derive(Clone, Copy, Debug, PartialEq, Eq)]
pub(crate) enum What {
    /// The owner of a channel finishes a message.
    Finish { channel: u32, seq: u64 },
    /// A tick reports windows that did not respond in time.
    Tick,
    /// A key is repeated.
    Repeat,
}

/// Something that may be done next, with the time at which it is due.
#[derive(Clone, Copy, Debug, PartialEq, Eq)]
pub(crate) struct Due {
    pub(crate) moment: u64,
    pub(crate) what: What,
}

/// The finish of a message by an owner who finishes at once. It is due when the message was delivered.
#[derive(Clone, Copy)]
pub(crate) struct AtOnce {
    pub(crate) channel: u32,
    pub(crate) seq: u64,
    pub(crate) moment: Moment,
}

/// The sooner of two; if their times are equal, the first.
pub(crate) fn sooner(best: Option<Due>, due: Option<Due>) -> Option<Due>
    ensures { result ≡ sooner_due best due }
{
    match (best, due) {
        (best, None) => best,
        (None, due) => due,
        (Some(first), Some(second)) => {
            if second.moment < first.moment {
                Some(second)
            } else {
                Some(first)
            }
        }
    }
}
