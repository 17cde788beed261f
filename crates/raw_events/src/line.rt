//! What one line of a recording says.
ghost use Rattle.std.specs.Prelude.{◌≡◌, ◌<◌, ◌^◌, option_map, IfSome, Some};
ghost use Rattle.std.specs.Int.{cast_signed, w32};
ghost use Rattle.raw_events.specs.Front.{FrontSays};
ghost use Rattle.raw_events.specs.Line.{known, seconds_at, moment_at, path_at, fields_of, sender, formed, judged_text, without_return, judged, device_at};

use crate::event::RawEvent;
use crate::front::{Front, front_of};
use crate::text::{decimal_at, digits_in_front, hex_at, past_blanks, past_byte};
use input_types::{DeviceId, Moment};
use text_lines::{skip_blanks, word_len};

/// The greatest length of a line, a carriage return at its end counted.
pub(crate) const MAX_LINE: usize = 4096;

/// Type, code and value of an event.
#[derive(Clone, Copy)]
pub(crate) struct Fields {
    pub(crate) kind: u16,
    pub(crate) code: u16,
    pub(crate) value: i32,
}

/// Type, code and value from their bits.
#[inline(always)]
pub(crate) fn fields_from(kind: u32, code: u32, value: u32) -> Fields
    requires kind { kind < 2 ^ 16 }
    requires code { code < 2 ^ 16 }
    ensures { result ≡ record { kind = kind; code = code; value = cast_signed w32 value } }
{
    Fields {
        kind: kind as u16,
        code: code as u16,
        value: value.cast_signed(),
    }
}

/// Why a line is refused.
#[derive(Clone, Copy)]
pub(crate) enum Cause {
    BadLine,
    NoMoment,
    TooLong,
}

/// What a line says.
#[derive(Clone, Copy)]
pub(crate) enum Line {
    PassedOver,
    Event(RawEvent),
    Refused(Cause),
}

/// 1 to 12 decimal digits.
#[inline(always)]
#[tactic(auto, unfolding(crate::specs::Line::seconds_at))]
pub(crate) fn seconds(bytes: &[u8]) -> Option<(u64, &[u8])>
    ensures value { option_map (λ read. (read.0, read.1.now)) result ≡ seconds_at bytes.now }
    ensures bound { IfSome result (λ read. read.0 < 10 ^ 12) }
{
    let len = digits_in_front(bytes);
    if len == 0 || len > 12 {
        return None;
    }
    decimal_at(len, bytes)
}

/// The time after the first bracket, in microseconds, and the second bracket.
#[inline(always)]
#[tactic(auto, unfolding(crate::specs::Line::moment_at))]
fn moment(bytes: &[u8]) -> Option<(u64, &[u8])>
    ensures value { option_map (λ read. (read.0, read.1.now)) result ≡ moment_at bytes.now }
    ensures bound { IfSome result (λ read. read.0 < 10 ^ 18) }
{
    let (seconds, rest) = seconds(skip_blanks(bytes))?;
    let rest = past_byte(b'.', rest)?;
    let (fraction, rest) = decimal_at(6, rest)?;
    let rest = past_byte(b']', skip_blanks(rest))?;
    Some((seconds * 1_000_000 + fraction, rest))
}

/// The path without its colon, if one stands there.
#[inline(always)]
#[tactic(auto, unfolding(crate::specs::Line::path_at))]
pub(crate) fn path(bytes: &[u8]) -> Option<(Option<&[u8]>, &[u8])>
    ensures { option_map (λ read. (option_map (λ path. path.now) read.0, read.1.now)) result ≡ path_at bytes.now }
{
    let [b'/', ..] = bytes else {
        return Some((None, bytes));
    };
    let (word, rest) = bytes.split_at(word_len(bytes));
    let [path @ .., b':'] = word else {
        return None;
    };
    let rest = past_blanks(rest)?;
    Some((Some(path), rest))
}

/// Type, code and value, up to the end of the line.
#[inline(always)]
#[tactic(auto, unfolding(crate::specs::Line::fields_of))]
fn read_fields(bytes: &[u8]) -> Option<Fields>
    ensures { result ≡ fields_of bytes.now }
{
    let (kind, rest) = hex_at(4, bytes)?;
    let rest = past_blanks(rest)?;
    let (code, rest) = hex_at(4, rest)?;
    let rest = past_blanks(rest)?;
    let (value, rest) = hex_at(8, rest)?;
    if !skip_blanks(rest).is_empty() {
        return None;
    }
    Some(fields_from(kind, code, value))
}

/// The device at a path, the first one where two have it.
#[inline(always)]
fn device_of(devices: &[(String, DeviceId)], path: &[u8]) -> Option<DeviceId>
    ensures { result ≡ device_at (known devices.now) path.now }
{
    for (known, device) in devices {
        if known.as_bytes() == path {
            return Some(*device);
        }
    }
    None
}

/// The device that sent a line.
#[inline(always)]
pub(crate) fn sender_of(devices: &[(String, DeviceId)], path: Option<&[u8]>) -> Option<DeviceId>
    ensures { result ≡ sender (known devices.now) (option_map (λ p. p.now) path.entry) }
{
    match path {
        Some(path) => device_of(devices, path),
        None => match devices {
            [(_, device), ..] => Some(*device),
            [] => None,
        },
    }
}

/// A line after its first bracket; None if it does not have the form.
#[tactic(auto, unfolding(crate::specs::Line::formed))]
fn formed_line(devices: &[(String, DeviceId)], bytes: &[u8]) -> Option<Line>
    ensures { result ≡ formed (known devices.now) bytes.now }
{
    let (us, rest) = moment(bytes)?;
    let rest = past_blanks(rest)?;
    let (path, rest) = path(rest)?;
    let fields = read_fields(rest)?;
    let Some(device) = sender_of(devices, path) else {
        return Some(Line::PassedOver);
    };
    Some(Line::Event(RawEvent {
        device,
        moment: Moment::new(us).unwrap(),
        kind: fields.kind,
        code: fields.code,
        value: fields.value,
    }))
}

/// What a line says that has no blanks in front.
#[inline(always)]
#[tactic(auto, unfolding(crate::specs::Line::judged_text))]
fn judge_text(devices: &[(String, DeviceId)], text: &[u8]) -> Line
    ensures { result ≡ judged_text (known devices.now) text.now }
{
    match text {
        [] => Line::PassedOver,
        [b'[', rest @ ..] => match formed_line(devices, rest) {
            Some(line) => line,
            None => Line::Refused(Cause::BadLine),
        },
        [b'/', ..] => Line::Refused(Cause::NoMoment),
        _ => match read_fields(text) {
            Some(_) => Line::Refused(Cause::NoMoment),
            None => Line::PassedOver,
        },
    }
}

/// The line without one carriage return at its end.
#[inline(always)]
fn strip_return(line: &[u8]) -> &[u8]
    ensures { result.now ≡ without_return line.now }
{
    match line {
        [text @ .., b'\r'] => text,
        _ => line,
    }
}

/// What a line says, its bytes given without its newline.
#[tactic(auto, unfolding(crate::specs::Line::judged))]
pub(crate) fn judge(devices: &[(String, DeviceId)], line: &[u8]) -> Line
    ensures { result ≡ judged (known devices.now) line.now }
{
    if line.len() > MAX_LINE {
        return Line::Refused(Cause::TooLong);
    }
    judge_text(devices, skip_blanks(strip_return(line)))
}

/// What a line says, whose front is kept.
#[tactic(auto, unfolding(crate::specs::Line::judged))]
pub(crate) fn judge_next<'a>(
    devices: &[(String, DeviceId)],
    front: &mut Option<Front<'a>>,
    line: &'a [u8],
) -> Line
    requires { IfSome front.old (λ f. FrontSays (known devices.now) f.to_point.now f.seconds f.part.now f.device
        f.head.now f.moment) }
    ensures line { result ≡ judged (known devices.now) line.now }
    ensures front { IfSome front.new (λ f. FrontSays (known devices.now) f.to_point.now f.seconds f.part.now f.device
        f.head.now f.moment) }
{
    if line.len() > MAX_LINE {
        return Line::Refused(Cause::TooLong);
    }
    let text = skip_blanks(strip_return(line));
    *front = front_of(devices, text);
    judge_text(devices, text)
}
