//! The sections of a text.
ghost use Rattle.std.specs.Prelude.{◌≡◌, ◌++◌, ◌≤◌, ◌<◌, List, [], length, map, IfOk};
ghost use Rattle.cursor_core.specs.declared.call.CursorCall.{CursorCall as Call};
ghost use Rattle.cursor_core.specs.Calls.{Screen};
ghost use Rattle.cursor_core.specs.Cursor.{CursorStandsFor};
ghost use Rattle.cursor_core.specs.Told.{stream};
ghost use Rattle.session_plan.specs.View.{channel_view};
ghost use Rattle.hover_text.specs.Lines.{action_word, end_line, message_line, message_lines, place_text, section_text};
ghost use Rattle.hover_text.specs.State.{IsWhole};
ghost use Rattle.hover_text.specs.Text.{sections_from};

use cursor_core::{Cursor, HoverAction, HoverMsg};
use input_types::Pixel;
use session_plan::ChannelPlan;
use std::alloc::AllocError;
use stream_text::channel_line_text;
use text_lines::{add_number, add_signed, add_word};

/// The word of an action, with a blank on each side.
fn add_action(text: &mut Vec<u8>, action: HoverAction) -> Result<(), AllocError>
    ensures { IfOk result (λ _. text.new.items ≡ text.old.items ++ action_word action) }
{
    match action {
        HoverAction::Enter => add_word(text, " HOVER_ENTER "),
        HoverAction::Move => add_word(text, " HOVER_MOVE "),
        HoverAction::Exit => add_word(text, " HOVER_EXIT "),
    }
}

/// A position in a window.
#[tactic(auto, unfolding(crate::specs::Lines::place_text))]
fn add_place(text: &mut Vec<u8>, at: Pixel) -> Result<(), AllocError>
    ensures { IfOk result (λ _. text.new.items ≡ text.old.items ++ place_text at) }
{
    add_signed(text, at.x)?;
    add_word(text, ",")?;
    add_signed(text, at.y)
}

/// The line of a message: its time, its action and its position in the window.
#[tactic(auto, unfolding(crate::specs::Lines::message_line))]
fn add_message(text: &mut Vec<u8>, message: &HoverMsg) -> Result<(), AllocError>
    ensures { IfOk result (λ _. text.new.items ≡ text.old.items ++ message_line message.now) }
{
    add_number(text, message.moment.get())?;
    add_action(text, message.action)?;
    add_place(text, message.at)?;
    add_word(text, "\n")
}

/// A line for each message.
fn add_messages(text: &mut Vec<u8>, messages: &[HoverMsg]) -> Result<(), AllocError>
    ensures { IfOk result (λ _. text.new.items ≡ text.old.items ++ message_lines messages.now) }
{
    for message in messages {
        add_message(text, message)?;
    }
    Ok(())
}

/// The last line of a section, with how many messages it has.
#[tactic(auto, unfolding(crate::specs::Lines::end_line))]
fn add_end(text: &mut Vec<u8>, id: u32, messages: u64) -> Result<(), AllocError>
    ensures { IfOk result (λ _. text.new.items ≡ text.old.items ++ end_line id messages) }
{
    add_word(text, "end ")?;
    add_number(text, u64::from(id))?;
    add_word(text, " ")?;
    add_number(text, messages)?;
    add_word(text, "\n")
}

/// The section of a channel.
fn add_section(
    text: &mut Vec<u8>,
    id: u32,
    name: &str,
    messages: &[HoverMsg],
) -> Result<(), AllocError>
    ensures { IfOk result (λ _. text.new.items ≡ text.old.items ++ section_text id name.now messages.now) }
{
    channel_line_text(id, name, text)?;
    add_messages(text, messages)?;
    add_end(text, id, messages.len() as u64)
}

/// What a channel of the session was sent.
fn told(cursor: &Cursor, channel: u32) -> &[HoverMsg]
    requires { IsWhole cursor.now }
    ensures { (d : Screen) (calls : List Call) → CursorStandsFor d calls cursor.now → 1 ≤ channel → channel ≤ d.channels
        → result.now ≡ stream d calls channel }
{
    match cursor.stream(channel) {
        Some(messages) => messages,
        None => &[],
    }
}

/// The section of each channel.
pub(crate) fn add_sections(
    text: &mut Vec<u8>,
    channels: &[ChannelPlan],
    cursor: &Cursor,
) -> Result<(), AllocError>
    requires few { length channels.now ≤ 64 }
    requires whole { IsWhole cursor.now }
    ensures { (d : Screen) (calls : List Call) → CursorStandsFor d calls cursor.now → d.channels ≡ length channels.now
        → IfOk result
        (λ _. text.new.items ≡ text.old.items ++ sections_from 1 (map channel_view channels.now) (stream d calls)) }
{
    for (place, channel) in channels.iter().enumerate() {
        let id = place as u32 + 1;
        add_section(text, id, channel.name.as_str(), told(cursor, id))?;
    }
    Ok(())
}
