//! Sessions and what is read from them.
//!
//! Standard input is a list of cases. A case is the bytes of a session file, and then a line that begins with `=> `
//! and has what `Plan::read` must return: the line of the refusal, or the plan in the words of `plan_text`, or
//! `cuts`, which wants a plan or a refusal for each prefix of the session. A case with another result is printed, and
//! at the end how many there were.
#![tactic(auto)]

use input_types::{DeviceId, DisplayId, Rotation};
use key_repeat::Repeats;
use session_plan::{Act, ChannelPlan, DeviceKind, DevicePlan, Display, Plan, PlanError, Step};
use std::alloc::{AllocError, Global};
use std::io;
use std::io::Read;
use window_snapshot::Window;

/// How far a display is turned, in degrees.
fn degrees(rotation: Rotation) -> u16 {
    match rotation {
        Rotation::R0 => 0,
        Rotation::R90 => 90,
        Rotation::R180 => 180,
        Rotation::R270 => 270,
    }
}

/// A display that is not display 0, which is never named.
fn display_text(alloc: Global, display: DisplayId) -> Result<String, AllocError> {
    match display.get() {
        0 => Ok(String::new(alloc)),
        number => format!(in alloc; " on {number}"),
    }
}

/// A device; one with keys by the key code of scan code 30.
fn device_text(alloc: Global, device: &DevicePlan) -> Result<String, AllocError> {
    let path = device.path.as_str();
    match &device.kind {
        DeviceKind::Touch {
            slots,
            x,
            y,
            display,
        } => {
            let shown = display_text(alloc, *display)?;
            format!(in alloc;
                " touch {path} {slots} {} {} {} {}{shown}",
                x.min, x.max, y.min, y.max
            )
        }
        DeviceKind::Keys { layout } => {
            let code = layout.code_of(30);
            format!(in alloc; " keys {path} {code}")
        }
    }
}

/// A channel: its name, its limit and its delay in microseconds, and whether it finishes messages.
fn channel_text(alloc: Global, channel: &ChannelPlan) -> Result<String, AllocError> {
    let name = channel.name.as_str();
    let limit = channel.limit.get();
    let after = channel.finish_after;
    let finishes = if channel.finishes {
        "finishes"
    } else {
        "keeps"
    };
    format!(in alloc; " channel {name} {limit} {after} {finishes}")
}

/// A window: its channel, its display, its frame, its flags, and its rectangles.
fn window_text(alloc: Global, window: &Window) -> Result<String, AllocError> {
    let frame = window.frame;
    let bits = bitflags::Flags::bits(&window.flags);
    let shown = display_text(alloc, window.display)?;
    let mut text = format!(in alloc;
        " {}{shown}@{},{},{},{}/{bits}",
        window.channel, frame.left, frame.top, frame.right, frame.bottom
    )?;
    for rect in window.region.rects() {
        text.push_str(format!(in alloc;
            "+{},{},{},{}",
            rect.left, rect.top, rect.right, rect.bottom
        )?
        .as_str())?;
    }
    Ok(text)
}

/// A request of the focus: its display, and its channel if it has one.
fn focus_text(
    alloc: Global,
    display: DisplayId,
    channel: Option<u32>,
) -> Result<String, AllocError> {
    let shown = display_text(alloc, display)?;
    match channel {
        Some(channel) => format!(in alloc; " focus{shown} {channel}"),
        None => format!(in alloc; " focus{shown}"),
    }
}

/// What a step does.
fn act_text(alloc: Global, act: &Act) -> Result<String, AllocError> {
    match act {
        Act::Windows(snapshot) => {
            let mut text = String::from_str(alloc, " windows")?;
            for window in snapshot.windows() {
                text.push_str(window_text(alloc, window)?.as_str())?;
            }
            Ok(text)
        }
        Act::FocusOn { display, channel } => focus_text(alloc, *display, *channel),
        Act::Pilfer { channel, device } => {
            let device = device.get();
            format!(in alloc; " pilfer {channel} {device}")
        }
        Act::Remove { channel } => format!(in alloc; " remove {channel}"),
    }
}

/// A step: its time, its lane, and what it does.
fn step_text(alloc: Global, step: &Step) -> Result<String, AllocError> {
    let at = step.at.get();
    let act = act_text(alloc, &step.act)?;
    format!(in alloc; " {at}:{}{act}", step.lane)
}

/// A display: its extent in pixels, and how far it is turned.
fn extent_text(alloc: Global, display: &Display) -> Result<String, AllocError> {
    let turn = degrees(display.rotation);
    format!(in alloc; " {}x{} {turn}", display.width, display.height)
}

/// The displays of devices 1 to 8, as eight digits.
fn devices_text(alloc: Global, plan: &Plan) -> Result<String, AllocError> {
    let mut text = String::from_str(alloc, " devices on ")?;
    if plan.devices.len() <= 8 {
        let displays = plan.device_displays();
        for number in 1..=8u8 {
            if let Some(device) = DeviceId::new(number) {
                let display = displays.of(device).get();
                text.push_str(format!(in alloc; "{display}")?.as_str())?;
            }
        }
    }
    Ok(text)
}

/// When held keys are repeated, unless it is as Android does.
fn repeats_text(alloc: Global, repeats: Option<Repeats>) -> Result<String, AllocError> {
    match repeats {
        Some(repeats) => {
            if repeats == Repeats::android() {
                Ok(String::new(alloc))
            } else {
                let first = repeats.first.get();
                let next = repeats.next.get();
                format!(in alloc; " repeats {first} {next}")
            }
        }
        None => String::from_str(alloc, " repeats nothing"),
    }
}

/// The whole plan on one line. It includes the displays of the devices if there is more than one display, and the
/// repeats of held keys if they are not Android's.
fn plan_text(alloc: Global, plan: &Plan) -> Result<String, AllocError> {
    let end = plan.end.get();
    let mut text = String::from_str(alloc, "plan")?;
    for display in &plan.displays {
        text.push_str(extent_text(alloc, display)?.as_str())?;
    }
    text.push_str(format!(in alloc; " {end}")?.as_str())?;
    text.push_str(repeats_text(alloc, plan.repeats)?.as_str())?;
    if plan.displays.len() > 1 {
        text.push_str(devices_text(alloc, plan)?.as_str())?;
    }
    for device in &plan.devices {
        text.push_str(device_text(alloc, device)?.as_str())?;
    }
    for channel in &plan.channels {
        text.push_str(channel_text(alloc, channel)?.as_str())?;
    }
    for step in &plan.steps {
        text.push_str(step_text(alloc, step)?.as_str())?;
    }
    Ok(text)
}

/// What a session says, or why it is refused.
fn answer(alloc: Global, session: &[u8]) -> Result<String, AllocError> {
    match Plan::read(alloc, session) {
        Ok(plan) => plan_text(alloc, &plan),
        Err(error) => error.line(alloc),
    }
}

/// Whether each prefix of a session is a plan or is refused; running out of memory is neither.
fn cuts_are_read(alloc: Global, session: &[u8]) -> bool {
    for end in 0..session.len() {
        if let Err(PlanError::Memory) = Plan::read(alloc, session.split_at(end).0) {
            return false;
        }
    }
    true
}

/// The answer to a case.
fn given(alloc: Global, session: &[u8], wanted: &[u8]) -> Result<String, AllocError> {
    if wanted == b"cuts".as_slice() {
        let text = if cuts_are_read(alloc, session) {
            "cuts"
        } else {
            "no memory"
        };
        String::from_str(alloc, text)
    } else {
        answer(alloc, session)
    }
}

fn main(rt: HostRuntime) -> io::Result<()> {
    let alloc = rt.alloc();
    let mut input = Vec::new(alloc);
    rt.reader().read_to_end(&mut input)?;
    let mut session: Vec<u8> = Vec::new(alloc);
    let mut cases: u64 = 0;
    let mut failed: u64 = 0;
    for line in input.as_slice().split(|b| *b == b'\n') {
        match line {
            [b'=', b'>', b' ', wanted @ ..] => {
                cases = cases.saturating_add(1);
                let given = given(alloc, &session, wanted)?;
                if given.as_bytes() != wanted {
                    failed = failed.saturating_add(1);
                    println!(rt; "case {cases}: {given}")?;
                }
                session.clear();
            }
            _ => {
                session.extend_from_slice(line)?;
                session.push(b'\n')?;
            }
        }
    }
    println!(rt; "{cases} cases, {failed} answered otherwise")
}
