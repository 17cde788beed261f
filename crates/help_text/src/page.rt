//! The pages of help.
ghost use Rattle.std.specs.Prelude.{◌≡◌};
ghost use Rattle.help_text.specs.Page.{help_of, page_text};

use crate::pages::{
    BATCH, CHECK, COMPARE, EMIT, HELP, HOVER, INSPECT, JUDGE, RACE, REPLAY, VERIFY, WHY, WORK,
};
use crate::version::VERSION;

/// The name of a command.
#[derive(Clone, Copy, Debug, PartialEq, Eq)]
pub enum Name {
    Replay,
    Race,
    Check,
    Verify,
    Work,
    Batch,
    Hover,
    Emit,
    Inspect,
    Why,
    Judge,
    Compare,
}

/// A text that the program prints about itself.
#[derive(Clone, Copy, Debug, PartialEq, Eq)]
pub enum Page {
    /// All commands.
    Help,
    /// The version.
    Version,
    /// One command.
    Of(Name),
}

/// The help of a command.
fn help_of(name: Name) -> &'static str
    ensures { result.now ≡ help_of name }
{
    match name {
        Name::Replay => REPLAY,
        Name::Race => RACE,
        Name::Check => CHECK,
        Name::Verify => VERIFY,
        Name::Work => WORK,
        Name::Batch => BATCH,
        Name::Hover => HOVER,
        Name::Emit => EMIT,
        Name::Inspect => INSPECT,
        Name::Why => WHY,
        Name::Judge => JUDGE,
        Name::Compare => COMPARE,
    }
}

/// The text of a page.
pub fn page_text(page: Page) -> &'static str
    ensures { result.now ≡ page_text page }
{
    match page {
        Page::Help => HELP,
        Page::Version => VERSION,
        Page::Of(name) => help_of(name),
    }
}
