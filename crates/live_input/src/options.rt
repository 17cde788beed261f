//! What a client is opened with.
ghost use Rattle.std.specs.Prelude.{◌≡◌};
ghost use Rattle.live_input.specs.Options.{no_options};

/// What a client is opened with.
#[derive(Clone, Copy, Debug, PartialEq, Eq)]
pub struct Options {
    /// Any number of the caller's, such as the address of what it keeps of the client. The service does not look at it.
    pub user_data: u64,
    /// Whether each of its messages counts as finished as soon as the client received it.
    pub finishes: bool,
}

impl Options {
    /// What [`Live::open`](crate::Live::open) opens a client with: the user data 0, and calls finish its messages.
    pub fn new() -> Options
        ensures { result ≡ no_options }
    {
        Options {
            user_data: 0,
            finishes: false,
        }
    }
}
