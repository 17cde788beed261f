//! What a client is opened with, in plain numbers.
ghost use Rattle.std.specs.Prelude.{◌≡◌};
ghost use Rattle.plain_calls.specs.Options.{options_of};

use live_input::Options;

/// What a client is opened with: `struct inputflinger_options`. All zeros are the default.
#[repr(C)]
#[derive(Clone, Copy, Debug)]
pub struct PlainOptions {
    /// Any number of the caller's. It comes back with the client and with each of its messages.
    pub user_data: u64,
    /// 1 if each message counts as finished as soon as the client received it, 0 if not.
    pub finishes: u8,
}

impl PlainOptions {
    /// The options; None if a number is out of its range.
    pub(crate) fn read(&self) -> Option<Options>
        ensures { result ≡ options_of self.now }
    {
        if self.finishes > 1 {
            return None;
        }
        Some(Options {
            user_data: self.user_data,
            finishes: self.finishes == 1,
        })
    }
}
