//! The forms of the commands: what their options say.
ghost use Rattle.std.specs.Prelude.{◌≡◌, ◌≤◌, ◌<◌, ◌^◌, IfSome, option_map};
ghost use Rattle.command_words.specs.Command.{InRanges, IsChannelIfNamed};
ghost use Rattle.command_words.specs.CommandView.{command_view, recorded_view};
ghost use Rattle.command_words.specs.Forms.{batch_of, channel_of, check_of, compare_of, emit_of, hover_of, inspect_of, judge_of, moves_of, number_of, race_of, recorded_of, replay_of, value_of, verify_of, why_of, work_of};
ghost use Rattle.command_words.specs.Options.{stands_in};

use crate::command::{Alone, Command, Recorded};
use crate::number::number;
use crate::options::Options;
use crate::value::{is_path, moves};
use input_types::DeviceId;

/// The number from `low` to `high` that an option says.
#[tactic(auto, unfolding(crate::specs::Forms::number_of))]
fn number_of(options: &Options<'_>, name: &str, low: u64, high: u64) -> Option<u64>
    requires { high < 2 ^ 32 }
    ensures value { result ≡ number_of (value_of options.now) name.now low high }
    ensures range { IfSome result (λ n. (low ≤ n) × (n ≤ high)) }
{
    let value = options.value(name)?;
    number(low, high, value)
}

/// The names of a session and a recording.
#[tactic(auto, unfolding(crate::specs::Forms::recorded_of))]
fn recorded_of<'a>(options: &Options<'a>) -> Option<Recorded<'a>>
    ensures { option_map recorded_view result ≡ recorded_of (value_of options.now) }
{
    let session = options.value("--session")?;
    let events = options.value("--events")?;
    Some(Recorded { session, events })
}

/// `replay`, with the files of a run.
#[tactic(auto, unfolding(crate::specs::Forms::replay_of))]
pub(crate) fn replay_of<'a>(options: &Options<'a>) -> Option<Command<'a>>
    ensures value { option_map command_view result ≡ replay_of (value_of options.now) }
    ensures ranges { IfSome result (λ c. InRanges (command_view c)) }
{
    let recorded = recorded_of(options)?;
    Some(Command::Alone(Alone::Replay(recorded)))
}

/// `race`, with the files of a run.
#[tactic(auto, unfolding(crate::specs::Forms::race_of))]
pub(crate) fn race_of<'a>(options: &Options<'a>) -> Option<Command<'a>>
    ensures value { option_map command_view result ≡ race_of (value_of options.now) }
    ensures ranges { IfSome result (λ c. InRanges (command_view c)) }
{
    let recorded = recorded_of(options)?;
    Some(Command::Race(recorded))
}

/// `check`, with an order file beside them.
#[tactic(auto, unfolding(crate::specs::Forms::check_of))]
pub(crate) fn check_of<'a>(options: &Options<'a>) -> Option<Command<'a>>
    ensures value { option_map command_view result ≡ check_of (value_of options.now) }
    ensures ranges { IfSome result (λ c. InRanges (command_view c)) }
{
    let recorded = recorded_of(options)?;
    let order = options.value("--order")?;
    Some(Command::Alone(Alone::Check { recorded, order }))
}

/// `verify`, with a stream file.
#[tactic(auto, unfolding(crate::specs::Forms::verify_of))]
pub(crate) fn verify_of<'a>(options: &Options<'a>) -> Option<Command<'a>>
    ensures value { option_map command_view result ≡ verify_of (value_of options.now) }
    ensures ranges { IfSome result (λ c. InRanges (command_view c)) }
{
    let stream = options.value("--stream")?;
    Some(Command::Alone(Alone::Verify { stream }))
}

/// `work`, with a seed of 32 bits and 1 to 200,000 packets.
#[tactic(auto, unfolding(crate::specs::Forms::work_of))]
pub(crate) fn work_of<'a>(options: &Options<'a>) -> Option<Command<'a>>
    ensures value { option_map command_view result ≡ work_of (value_of options.now) }
    ensures ranges { IfSome result (λ c. InRanges (command_view c)) }
{
    let seed = number_of(options, "--seed", 0, 4_294_967_295)? as u32;
    let packets = number_of(options, "--packets", 1, 200_000)? as u32;
    Some(Command::Alone(Alone::Work { seed, packets }))
}

/// `batch`, with a stream file and a frame of 1 to 1,000,000,000.
#[tactic(auto, unfolding(crate::specs::Forms::batch_of))]
pub(crate) fn batch_of<'a>(options: &Options<'a>) -> Option<Command<'a>>
    ensures value { option_map command_view result ≡ batch_of (value_of options.now) }
    ensures ranges { IfSome result (λ c. InRanges (command_view c)) }
{
    let stream = options.value("--stream")?;
    let frame = number_of(options, "--frame", 1, 1_000_000_000)?;
    Some(Command::Alone(Alone::Batch { stream, frame }))
}

/// `hover`, with the files of a run and the path of a mouse.
#[tactic(auto, unfolding(crate::specs::Forms::hover_of))]
pub(crate) fn hover_of<'a>(options: &Options<'a>) -> Option<Command<'a>>
    ensures value { option_map command_view result ≡ hover_of (value_of options.now) }
    ensures ranges { IfSome result (λ c. InRanges (command_view c)) }
{
    let recorded = recorded_of(options)?;
    let mouse = options.value("--mouse")?;
    if is_path(mouse) {
        Some(Command::Alone(Alone::Hover { recorded, mouse }))
    } else {
        None
    }
}

/// `emit`, with a stream file, a channel of 1 to 64 and a device of 1 to 8.
#[tactic(auto, unfolding(crate::specs::Forms::emit_of))]
pub(crate) fn emit_of<'a>(options: &Options<'a>) -> Option<Command<'a>>
    ensures value { option_map command_view result ≡ emit_of (value_of options.now) }
    ensures ranges { IfSome result (λ c. InRanges (command_view c)) }
{
    let stream = options.value("--stream")?;
    let channel = number_of(options, "--channel", 1, 64)? as u32;
    let device = DeviceId::new(number_of(options, "--device", 1, 8)? as u8)?;
    Some(Command::Alone(Alone::Emit {
        stream,
        channel,
        device,
    }))
}

/// `judge`, with a stream file.
#[tactic(auto, unfolding(crate::specs::Forms::judge_of))]
pub(crate) fn judge_of<'a>(options: &Options<'a>) -> Option<Command<'a>>
    ensures value { option_map command_view result ≡ judge_of (value_of options.now) }
    ensures ranges { IfSome result (λ c. InRanges (command_view c)) }
{
    let stream = options.value("--stream")?;
    Some(Command::Alone(Alone::Judge { stream }))
}

/// The channel from 1 to 64 that an option gives, if the option stands. None if it stands and gives none.
#[tactic(auto, unfolding(crate::specs::Forms::channel_of, crate::specs::Forms::number_of))]
fn channel_of(options: &Options<'_>, name: &str) -> Option<Option<u32>>
    ensures value { result ≡ channel_of (value_of options.now) (stands_in options.now) name.now }
    ensures range { IfSome result (λ c. IsChannelIfNamed c) }
{
    if options.stands(name) {
        let channel = number_of(options, name, 1, 64)?;
        Some(Some(channel as u32))
    } else {
        Some(None)
    }
}

/// Whether each move is a point. None if the option says neither.
#[tactic(auto, unfolding(crate::specs::Forms::moves_of))]
fn moves_of(options: &Options<'_>) -> Option<bool>
    ensures { result ≡ moves_of (value_of options.now) (stands_in options.now) }
{
    if options.stands("--moves") {
        let value = options.value("--moves")?;
        moves(value)
    } else {
        Some(false)
    }
}

/// `compare`, with two stream files, 0 to 1,000,000,000 microseconds and 0 to 16,384 pixels, perhaps a channel of
/// each, and what moves are.
#[tactic(auto, unfolding(crate::specs::Forms::compare_of))]
pub(crate) fn compare_of<'a>(options: &Options<'a>) -> Option<Command<'a>>
    ensures value { option_map command_view result ≡ compare_of (value_of options.now) (stands_in options.now) }
    ensures ranges { IfSome result (λ c. InRanges (command_view c)) }
{
    let want = options.value("--want")?;
    let got = options.value("--got")?;
    let us = number_of(options, "--us", 0, 1_000_000_000)?;
    let pixels = number_of(options, "--pixels", 0, 16_384)? as u32;
    let want_channel = channel_of(options, "--want-channel")?;
    let got_channel = channel_of(options, "--got-channel")?;
    let each_move = moves_of(options)?;
    Some(Command::Alone(Alone::Compare {
        want,
        got,
        us,
        pixels,
        want_channel,
        got_channel,
        each_move,
    }))
}

/// `inspect`, with the files of a run.
#[tactic(auto, unfolding(crate::specs::Forms::inspect_of))]
pub(crate) fn inspect_of<'a>(options: &Options<'a>) -> Option<Command<'a>>
    ensures value { option_map command_view result ≡ inspect_of (value_of options.now) }
    ensures ranges { IfSome result (λ c. InRanges (command_view c)) }
{
    let recorded = recorded_of(options)?;
    Some(Command::Alone(Alone::Inspect(recorded)))
}

/// `why`, with the files of a run.
#[tactic(auto, unfolding(crate::specs::Forms::why_of))]
pub(crate) fn why_of<'a>(options: &Options<'a>) -> Option<Command<'a>>
    ensures value { option_map command_view result ≡ why_of (value_of options.now) }
    ensures ranges { IfSome result (λ c. InRanges (command_view c)) }
{
    let recorded = recorded_of(options)?;
    Some(Command::Alone(Alone::Why(recorded)))
}
