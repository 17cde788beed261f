//! The front of a line, from its first bracket up to its type. Successive lines usually have the same front except for
//! the microseconds, so it is read once for many lines.
ghost use Rattle.std.specs.Prelude.{◌≡◌, ◌+◌, ◌*◌, ◌^◌, ◌<◌, ◌∷◌, ◌++◌, ◌⊎◌, length, IfSome, IsTrue};
ghost use Rattle.raw_events.specs.Line.{Known, known, sent};
ghost use Rattle.raw_events.specs.Front.{SecondsSay, PathSays, FrontSays};
ghost use Rattle.raw_events.specs.Kept.{TakesLine};
ghost use Rattle.raw_events.specs.Recording.{line_len};

use crate::line::{Fields, MAX_LINE, path, seconds, sender_of};
use crate::micros::{MICROS_LEN, micros};
use crate::same::is_same;
use crate::text::{past_blanks, past_byte};
use crate::usual::{USUAL_LEN, usual_fields};
use input_types::{DeviceId, Moment};
use memchr::memchr;
use text_lines::{line_len, skip_blanks};

/// The front of a line, and what it says whatever stands behind it.
#[derive(Clone, Copy)]
pub(crate) struct Front<'a> {
    /// From the first bracket to the point of the seconds.
    to_point: &'a [u8],
    seconds: u64,

    /// From the second bracket up to the type.
    part: &'a [u8],
    pub(crate) device: Option<DeviceId>,

    /// All of it: both parts with the microseconds between them.
    head: &'a [u8],
    pub(crate) moment: Moment,
}

/// Whether no newline stands in these bytes.
fn is_unended(bytes: &[u8]) -> bool
    ensures { IsTrue result → line_len bytes.now ≡ length bytes.now }
{
    line_len(bytes) == bytes.len()
}

/// The seconds between the first bracket and the point.
#[inline(never)]
fn seconds_say(to_point: &[u8]) -> Option<u64>
    ensures { IfSome result (λ s. SecondsSay to_point.now s) }
{
    let (seconds, rest) = seconds(skip_blanks(past_byte(b'[', to_point)?))?;
    let behind = past_byte(b'.', rest)?;
    if !behind.is_empty() || !is_unended(to_point) {
        return None;
    }
    Some(seconds)
}

/// The device of the path that stands between blanks.
#[inline(never)]
fn part_says(devices: &[(String, DeviceId)], part: &[u8]) -> Option<Option<DeviceId>>
    ensures { IfSome result (λ device. PathSays (known devices.now) part.now device) }
{
    let (path, rest) = path(past_blanks(part)?)?;
    if path.is_none() || !rest.is_empty() || !is_unended(part) {
        return None;
    }
    Some(sender_of(devices, path))
}

/// The time with this many seconds and microseconds.
#[inline(always)]
fn moment_of(seconds: u64, micros: u64) -> Moment
    requires seconds { seconds < 10 ^ 12 }
    requires micros { micros < 10 ^ 6 }
    ensures { result ≡ seconds * 1000000 + micros }
{
    Moment::new(seconds * 1_000_000 + micros).unwrap()
}

/// The front made of these parts, if its microseconds are written as usual.
#[inline(always)]
fn front_with<'a>(
    to_point: &'a [u8],
    seconds: u64,
    digits: &[u8],
    part: &'a [u8],
    device: Option<DeviceId>,
    head: &'a [u8],
) -> Option<Front<'a>>
    requires seconds { SecondsSay to_point.now seconds }
    requires whole { head.now ≡ to_point.now ++ (digits.now ++ part.now) }
    requires short { length head.now < 4078 }
    ensures says { (devices : Known) → PathSays devices part.now device → IfSome result
        (λ f. FrontSays devices f.to_point.now f.seconds f.part.now f.device f.head.now f.moment) }
    ensures head { IfSome result (λ f. f.head.now ≡ head.now) }
{
    let micros = micros(digits)?;
    Some(Front {
        to_point,
        seconds,
        part,
        device,
        head,
        moment: moment_of(seconds, micros),
    })
}

/// The front of a line whose microseconds, type, code and value are written as usual.
pub(crate) fn front_of<'a>(devices: &[(String, DeviceId)], text: &'a [u8]) -> Option<Front<'a>>
    ensures { IfSome result (λ f. FrontSays (known devices.now) f.to_point.now f.seconds f.part.now f.device
        f.head.now f.moment) }
{
    let bracket = memchr(b']', text)?;
    if bracket + 1 < MICROS_LEN || text.len() < USUAL_LEN || text.len() >= MAX_LINE {
        return None;
    }
    let (head, _) = text.split_at(text.len() - USUAL_LEN);
    if head.len() < bracket + 1 {
        return None;
    }
    let (to_point, rest) = head.split_at(bracket + 1 - MICROS_LEN);
    let (digits, part) = rest.split_at(MICROS_LEN);
    let seconds = seconds_say(to_point)?;
    let device = part_says(devices, part)?;
    front_with(to_point, seconds, digits, part, device, head)
}

/// The seconds of the next line, which are those of the line before if they are written alike.
#[inline(always)]
fn next_seconds(last: &[u8], seconds: u64, to_point: &[u8]) -> Option<u64>
    requires { SecondsSay last.now seconds }
    ensures { IfSome result (λ s. SecondsSay to_point.now s) }
{
    if is_same(to_point, last) {
        Some(seconds)
    } else {
        seconds_say(to_point)
    }
}

/// The device of the next line, which is that of the line before if their paths are alike.
#[inline(always)]
fn next_device(
    devices: &[(String, DeviceId)],
    last: &[u8],
    device: Option<DeviceId>,
    part: &[u8],
) -> Option<Option<DeviceId>>
    requires { PathSays (known devices.now) last.now device }
    ensures { IfSome result (λ device. PathSays (known devices.now) part.now device) }
{
    if is_same(part, last) {
        Some(device)
    } else {
        part_says(devices, part)
    }
}

/// Reads the head of the next line, if all its parts are as long as those of the line before.
#[inline(always)]
fn renew<'a>(devices: &[(String, DeviceId)], front: &mut Front<'a>, head: &'a [u8]) -> Option<()>
    requires front { FrontSays (known devices.now) front.old.to_point.now front.old.seconds front.old.part.now
        front.old.device front.old.head.now front.old.moment }
    requires short { length head.now < 4078 }
    ensures front { FrontSays (known devices.now) front.new.to_point.now front.new.seconds front.new.part.now
        front.new.device front.new.head.now front.new.moment }
    ensures taken { IfSome result (λ done. front.new.head.now ≡ head.now) }
{
    if head.len() < front.to_point.len() {
        return None;
    }
    let (to_point, rest) = head.split_at(front.to_point.len());
    if rest.len() < MICROS_LEN {
        return None;
    }
    let (digits, part) = rest.split_at(MICROS_LEN);
    let seconds = next_seconds(front.to_point, front.seconds, to_point)?;
    let device = next_device(devices, front.part, front.device, part)?;
    let micros = micros(digits)?;
    front.to_point = to_point;
    front.seconds = seconds;
    front.part = part;
    front.device = device;
    front.head = head;
    front.moment = moment_of(seconds, micros);
    Some(())
}

/// Reads the head of the next line. Nothing changes if it is that of the line before.
#[inline(always)]
fn take_head<'a>(
    devices: &[(String, DeviceId)],
    front: &mut Front<'a>,
    head: &'a [u8],
) -> Option<()>
    requires front { FrontSays (known devices.now) front.old.to_point.now front.old.seconds front.old.part.now
        front.old.device front.old.head.now front.old.moment }
    requires short { length head.now < 4078 }
    ensures front { FrontSays (known devices.now) front.new.to_point.now front.new.seconds front.new.part.now
        front.new.device front.new.head.now front.new.moment }
    ensures taken { IfSome result (λ done. front.new.head.now ≡ head.now) }
{
    if !is_same(head, front.head) {
        renew(devices, front, head)?;
    }
    Some(())
}

/// What stands behind a carriage return and a newline.
#[inline(always)]
fn past_return(bytes: &[u8]) -> Option<&[u8]>
    ensures { IfSome result (λ after. bytes.now ≡ 13 ∷ 10 ∷ after.now) }
{
    match bytes {
        [b'\r', b'\n', after @ ..] => Some(after),
        _ => None,
    }
}

/// What stands after the end of a line, which is a newline, perhaps after a carriage return.
#[inline(always)]
fn past_end(bytes: &[u8]) -> Option<&[u8]>
    ensures { IfSome result (λ after. (bytes.now ≡ 10 ∷ after.now) ⊎ (bytes.now ≡ 13 ∷ 10 ∷ after.now)) }
{
    match bytes {
        [b'\n', after @ ..] => Some(after),
        _ => past_return(bytes),
    }
}

/// The fields of the first line that ends in these bytes, and what stands after its newline, if the line is as long as
/// the one before it and has such a front. None decides nothing.
#[inline(always)]
pub(crate) fn quick_fields<'a>(
    devices: &[(String, DeviceId)],
    front: &mut Front<'a>,
    bytes: &'a [u8],
) -> Option<(Fields, &'a [u8])>
    requires { FrontSays (known devices.now) front.old.to_point.now front.old.seconds front.old.part.now
        front.old.device front.old.head.now front.old.moment }
    ensures line { IfSome result (λ taken. TakesLine (known devices.now) bytes.now
        (sent front.new.device front.new.moment taken.0) taken.1.now) }
    ensures front { FrontSays (known devices.now) front.new.to_point.now front.new.seconds front.new.part.now
        front.new.device front.new.head.now front.new.moment }
{
    let len = front.head.len();
    if bytes.len() <= len + USUAL_LEN {
        return None;
    }
    let (head, rest) = bytes.split_at(len);
    let (end, rest) = rest.split_at(USUAL_LEN);
    let after = past_end(rest)?;
    take_head(devices, front, head)?;
    let fields = usual_fields(end)?;
    Some((fields, after))
}
