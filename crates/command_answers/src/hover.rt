//! `hover`: what the windows of a session are sent for a mouse.
ghost use Rattle.std.specs.Prelude.{◌≡◌, Ok, IfOk, IfErr};
ghost use Rattle.command_words.specs.Command.{hover};
ghost use Rattle.command_words.specs.CommandView.{recorded_view};
ghost use Rattle.raw_events.specs.Line.{known};
ghost use Rattle.session_plan.specs.Valid.{IsPlan};
ghost use Rattle.session_plan.specs.View.{plan_view};
ghost use Rattle.command_files.specs.Keeping.{CanReadBoth, KeepsFiles};
ghost use Rattle.command_answers.specs.Hover.{HoverAnswers, mouse_alone};
ghost use Rattle.command_answers.specs.Program.{Answers, RefusesCommand};

use command_files::{Refusal, device_number, read_events, read_session};
use command_words::Recorded;
use hover_text::Hover;
use input_types::DeviceId;
use outside_io::Files;
use raw_events::RawEvent;
use session_plan::Plan;
use std::alloc::{AllocError, Global};
use text_pieces::Pieces;

/// The mouse alone, as device 1.
fn mouse_alone(alloc: Global, path: &str) -> Result<Vec<(String, DeviceId)>, AllocError>
    ensures { IfOk result (λ v. known v.items ≡ mouse_alone path.now) }
{
    let mut devices = Vec::new(alloc);
    devices.push((String::from_str(alloc, path)?, device_number(0)))?;
    Ok(devices)
}

/// What the windows of a session are sent for a mouse.
fn hover_text(alloc: Global, session: &Plan, events: &[RawEvent]) -> Result<Pieces, AllocError>
    requires { IsPlan session.now }
    ensures { IfOk result (λ text. HoverAnswers (plan_view session.now) events.now (Ok text)) }
{
    let mut hover = Hover::new(alloc, session)?;
    hover.take_all(session, events)?;
    let text = hover.end(alloc, session)?;
    Ok(Pieces::of(alloc, text))
}

/// Reads and judges the files of `hover`, and makes the text.
pub fn answer_hover<F: Files>(
    alloc: Global,
    files: &mut F,
    names: Recorded<'_>,
    mouse: &str,
) -> Result<Pieces, Refusal>
    requires files { CanReadBoth F.Files files.old names.session.now names.events.now }
    ensures ok { IfOk result (λ text. Answers (F.entries files.old) (F.readings files.old) (F.readings files.new)
        (hover (recorded_view names.entry) mouse.now) (Ok text)) }
    ensures err { IfErr result (RefusesCommand (F.entries files.old) (F.readings files.old) (F.readings files.new)
        (hover (recorded_view names.entry) mouse.now) (F.faults files.old) (F.faults files.new)) }
    ensures files { KeepsFiles F.Files files.old files.new }
{
    let session = read_session(alloc, files, names.session)?;
    let devices = mouse_alone(alloc, mouse)?;
    let events = read_events(alloc, files, &devices, names.events)?;
    Ok(hover_text(alloc, &session, &events)?)
}
