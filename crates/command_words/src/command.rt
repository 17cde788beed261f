//! The commands.
ghost use Rattle.std.specs.Prelude.{◌≡◌, IfSome, map, option_map, string_bytes};
ghost use Rattle.command_words.specs.Command.{InRanges};
ghost use Rattle.command_words.specs.CommandView.{command_view};
ghost use Rattle.command_words.specs.Forms.{behind, command_with, form_of, value_of};
ghost use Rattle.command_words.specs.Options.{stands_in};

use crate::forms::{
    batch_of, check_of, compare_of, emit_of, hover_of, inspect_of, judge_of, race_of, replay_of,
    verify_of, why_of, work_of,
};
use crate::names::{asks_help, named, page_of};
use crate::options::Options;
use help_text::{Name, Page};
use input_types::DeviceId;

/// The names of the files that a run reads.
#[derive(Clone, Copy)]
pub struct Recorded<'a> {
    pub session: &'a str,
    pub events: &'a str,
}

/// A command with what its options say.
#[derive(Clone, Copy)]
pub enum Command<'a> {
    /// Prints an order that threads took, and what each window is sent in it.
    Race(Recorded<'a>),
    /// A command that starts no threads.
    Alone(Alone<'a>),
}

/// A command that starts no threads, with what its options say.
#[derive(Clone, Copy)]
pub enum Alone<'a> {
    /// Prints what each window is sent for a recording.
    Replay(Recorded<'a>),
    /// Prints what each window is sent in the order that a file gives.
    Check {
        recorded: Recorded<'a>,
        order: &'a str,
    },
    /// Judges printed streams.
    Verify {
        stream: &'a str,
    },
    /// Runs a recording made from a seed, of 1 to 200,000 packets.
    Work {
        seed: u32,
        packets: u32,
    },
    /// Prints the batches that an application receives with each frame, which lasts 1 to 1,000,000,000.
    Batch {
        stream: &'a str,
        frame: u64,
    },
    /// Prints the hover events of a mouse. Its path begins with a slash and has no space or tab.
    Hover {
        recorded: Recorded<'a>,
        mouse: &'a str,
    },
    /// Prints a recording that reproduces what a device did in the stream of a channel, 1 to 64.
    Emit {
        stream: &'a str,
        channel: u32,
        device: DeviceId,
    },
    /// Judges whether each section of printed streams is whole, and says why not.
    Judge {
        stream: &'a str,
    },
    /// Compares actual with expected streams, within 0 to 1,000,000,000 microseconds and 0 to 16,384 pixels.
    Compare {
        want: &'a str,
        got: &'a str,
        us: u64,
        pixels: u32,
        /// The channel of the expected sections, 1 to 64, if it is named; else all without it.
        want_channel: Option<u32>,
        got_channel: Option<u32>,
        /// Whether each move is a point.
        each_move: bool,
    },
    /// Prints what a session and a recording contain.
    Inspect(Recorded<'a>),
    /// Prints the result of each call of a run, and why.
    Why(Recorded<'a>),
    /// Prints a page of help, or the version.
    Show(Page),
}

/// The command with a name, if its options are valid.
fn command_with<'a>(name: Name, options: &Options<'a>) -> Option<Command<'a>>
    ensures value { option_map command_view result ≡ command_with name (value_of options.now) (stands_in options.now) }
    ensures ranges { IfSome result (λ c. InRanges (command_view c)) }
{
    match name {
        Name::Replay => replay_of(options),
        Name::Race => race_of(options),
        Name::Check => check_of(options),
        Name::Verify => verify_of(options),
        Name::Work => work_of(options),
        Name::Batch => batch_of(options),
        Name::Hover => hover_of(options),
        Name::Emit => emit_of(options),
        Name::Inspect => inspect_of(options),
        Name::Why => why_of(options),
        Name::Judge => judge_of(options),
        Name::Compare => compare_of(options),
    }
}

/// The command with a name and the words after it.
fn behind(name: Name, words: &[String]) -> Option<Command<'_>>
    ensures value { option_map command_view result ≡ behind name (map string_bytes words.now) }
    ensures ranges { IfSome result (λ c. InRanges (command_view c)) }
{
    if asks_help(words) {
        return Some(Command::Alone(Alone::Show(Page::Of(name))));
    }
    let options = Options::of(words)?;
    if options.all_own(name) {
        command_with(name, &options)
    } else {
        None
    }
}

/// The command that words give. A page of help is a word alone. Otherwise the first word names the command, and the
/// others ask for its help or are its options, in any order, as `--name value` or `--name=value`: each that it needs
/// once, those in brackets at most once, and nothing else. A value is not empty and does not begin with `-`, and a
/// number has 1 to 10 decimal digits. None if the words do not have the form of any command.
#[tactic(auto, unfolding(crate::specs::Forms::form_of))]
pub fn command_of(words: &[String]) -> Option<Command<'_>>
    ensures value { option_map command_view result ≡ form_of (map string_bytes words.now) }
    ensures ranges { IfSome result (λ c. InRanges (command_view c)) }
{
    match words {
        [] => None,
        [word] => {
            let page = page_of(word.as_str())?;
            Some(Command::Alone(Alone::Show(page)))
        }
        [word, rest @ ..] => {
            let name = named(word.as_str())?;
            behind(name, rest)
        }
    }
}
