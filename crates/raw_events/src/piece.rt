//! What a piece of a recording gives.
ghost use Rattle.std.specs.Prelude.{◌≡◌, ◌<◌, length, ◌∷◌, ◌++◌, [], IfOk, IfSome, MatchOption, vec_capacity};
ghost use Rattle.std.specs.Result.{result_map_both};
ghost use Rattle.raw_events.specs.Front.{FrontSays};
ghost use Rattle.raw_events.specs.Line.{known, sent};
ghost use Rattle.raw_events.specs.Recording.{line_len, refusal};
ghost use Rattle.raw_events.specs.Pieces.{parts, last_line, tell, from_parts};
ghost use Rattle.raw_events.specs.Kept.{IsKept, TakesLine, TellsFront, TellsLine, TellsLines, ReadsPiece, Keeps};

use crate::event::{LineError, RawEvent};
use crate::front::{Front, quick_fields};
use crate::line::{Cause, Fields, Line, MAX_LINE, judge, judge_next};
use input_types::{DeviceId, Moment};
use text_lines::line_len;

/// The bytes up to the first newline, and those after it; None if there is no newline.
#[inline(always)]
fn next_line(bytes: &[u8]) -> Option<(&[u8], &[u8])>
    ensures parts { MatchOption result (parts bytes.now ≡ record { ended = []; begun = bytes.now })
        (λ cut. parts bytes.now
        ≡ record { ended = cut.0.now ∷ (parts cut.1.now).ended; begun = (parts cut.1.now).begun }) }
    ensures unended { MatchOption result (line_len bytes.now ≡ length bytes.now)
        (λ cut. line_len cut.0.now ≡ length cut.0.now) }
    ensures shorter { IfSome result (λ cut. length cut.1.now < length bytes.now) }
{
    let (line, rest) = bytes.split_at(line_len(bytes));
    match rest {
        [_, after @ ..] => Some((line, after)),
        [] => None,
    }
}

/// The refusal of a line by its number.
fn refused(cause: Cause, line: u64) -> LineError
    ensures { result ≡ refusal cause line }
{
    match cause {
        Cause::BadLine => LineError::BadLine { line },
        Cause::NoMoment => LineError::NoMoment { line },
        Cause::TooLong => LineError::TooLong { line },
    }
}

/// Appends the event of a line, if it gives one, and returns the number of the next line.
#[inline(always)]
pub(crate) fn tell_line(
    line: &Line,
    number: u64,
    events: &mut Vec<RawEvent>,
) -> Result<u64, LineError>
    ensures { TellsLine result line.now number events.old.items events.new.items }
{
    match line {
        Line::PassedOver => {}
        // Field by field, so that what lies between the fields is not carried along.
        Line::Event(event) => events.push(RawEvent {
            device: event.device,
            moment: event.moment,
            kind: event.kind,
            code: event.code,
            value: event.value,
        })?,
        Line::Refused(cause) => return Err(refused(*cause, number)),
    }
    Ok(number.saturating_add(1))
}

/// What the first line says that ends in these bytes, and what stands after its newline. Its front is kept. None if
/// there is no newline.
#[inline(never)]
#[tactic(auto, using(crate::proofs::Unended::takes_cut))]
fn find_line<'a>(
    devices: &[(String, DeviceId)],
    front: &mut Option<Front<'a>>,
    bytes: &'a [u8],
) -> Option<(Line, &'a [u8])>
    requires { IfSome front.old (λ f. FrontSays (known devices.now) f.to_point.now f.seconds f.part.now f.device
        f.head.now f.moment) }
    ensures line { MatchOption result (parts bytes.now ≡ record { ended = []; begun = bytes.now })
        (λ taken. TakesLine (known devices.now) bytes.now taken.0 taken.1.now) }
    ensures front { IfSome front.new (λ f. FrontSays (known devices.now) f.to_point.now f.seconds f.part.now f.device
        f.head.now f.moment) }
{
    let (line, after) = next_line(bytes)?;
    Some((judge_next(devices, front, line), after))
}

/// Appends the event of a line with these fields, from this device at this time, and returns the number of the next
/// line.
#[inline(always)]
fn tell_fields(
    device: Option<DeviceId>,
    moment: Moment,
    fields: Fields,
    number: u64,
    events: &mut Vec<RawEvent>,
) -> Result<u64, LineError>
    ensures { TellsLine result (sent device moment fields) number events.old.items events.new.items }
{
    if let Some(device) = device {
        // Field by field, so that what lies between the fields is not carried along.
        events.push(RawEvent {
            device,
            moment,
            kind: fields.kind,
            code: fields.code,
            value: fields.value,
        })?;
    }
    Ok(number.saturating_add(1))
}

/// Appends the events of the first lines that have such a front. Returns the number of the line after them, and all
/// bytes from there on.
fn read_quick<'a>(
    devices: &[(String, DeviceId)],
    front: &mut Front<'a>,
    number: u64,
    bytes: &'a [u8],
    events: &mut Vec<RawEvent>,
) -> Result<(u64, &'a [u8]), LineError>
    requires { FrontSays (known devices.now) front.old.to_point.now front.old.seconds front.old.part.now
        front.old.device front.old.head.now front.old.moment }
    ensures told { TellsFront (known devices.now) (result_map_both (λ r. (r.0, r.1.now)) (λ e. e) result) number
        bytes.now events.old.items events.new.items }
    ensures front { FrontSays (known devices.now) front.new.to_point.now front.new.seconds front.new.part.now
        front.new.device front.new.head.now front.new.moment }
{
    let mut number = number;
    let mut rest = bytes;
    'lines: while let Some((fields, after)) = quick_fields(devices, front, rest) {
        number = tell_fields(front.device, front.moment, fields, number, events)?;
        rest = after;
    }
    Ok((number, rest))
}

/// Appends the events of the first lines that have the kept front, if one is kept.
fn read_alike<'a>(
    devices: &[(String, DeviceId)],
    front: &mut Option<Front<'a>>,
    number: u64,
    bytes: &'a [u8],
    events: &mut Vec<RawEvent>,
) -> Result<(u64, &'a [u8]), LineError>
    requires { IfSome front.old (λ f. FrontSays (known devices.now) f.to_point.now f.seconds f.part.now f.device
        f.head.now f.moment) }
    ensures told { TellsFront (known devices.now) (result_map_both (λ r. (r.0, r.1.now)) (λ e. e) result) number
        bytes.now events.old.items events.new.items }
    ensures front { IfSome front.new (λ f. FrontSays (known devices.now) f.to_point.now f.seconds f.part.now f.device
        f.head.now f.moment) }
{
    match front {
        Some(kept) => read_quick(devices, kept, number, bytes, events),
        None => Ok((number, bytes)),
    }
}

/// Appends the events of the lines that end in these bytes, and returns the number of the line after them with its
/// bytes.
pub(crate) fn read_lines<'a>(
    devices: &[(String, DeviceId)],
    number: u64,
    bytes: &'a [u8],
    events: &mut Vec<RawEvent>,
) -> Result<(u64, &'a [u8]), LineError>
    ensures told { TellsLines (result_map_both (λ r. r.0) (λ e. e) result)
        (tell (known devices.now) number (parts bytes.now).ended) events.old.items events.new.items }
    ensures begun { IfOk result (λ r. r.1.now ≡ (parts bytes.now).begun) }
{
    let mut number = number;
    let mut rest = bytes;
    let mut front: Option<Front> = None;
    'lines: while let Some((said, after)) = find_line(devices, &mut front, rest) {
        let next = tell_line(&said, number, events)?;
        let (behind, others) = read_alike(devices, &mut front, next, after, events)?;
        number = behind;
        rest = others;
    }
    Ok((number, rest))
}

/// Appends the event of what stands behind the last newline, where anything does.
pub(crate) fn tell_last(
    devices: &[(String, DeviceId)],
    number: u64,
    last: &[u8],
    events: &mut Vec<RawEvent>,
) -> Result<u64, LineError>
    ensures { TellsLines result (tell (known devices.now) number (last_line last.now))
        events.old.items events.new.items }
{
    if last.is_empty() {
        return Ok(number);
    }
    let line = judge(devices, last);
    tell_line(&line, number, events)
}

/// Reads a piece after the line that has begun, whose bytes `kept` has. Returns the number of the line that goes on
/// after the piece; `kept` then has its bytes.
pub(crate) fn read_piece(
    devices: &[(String, DeviceId)],
    kept: &mut Vec<u8>,
    number: u64,
    piece: &[u8],
    events: &mut Vec<RawEvent>,
) -> Result<u64, LineError>
    requires { IsKept kept.old.items (vec_capacity kept.old) }
    ensures kept { IsKept kept.new.items (vec_capacity kept.new) }
    ensures read { ReadsPiece result (from_parts (known devices.now) number (parts (kept.old.items ++ piece.now)))
        events.old.items events.new.items kept.old.items kept.new.items }
{
    if kept.is_empty() {
        return read_fresh(devices, kept, number, piece, events);
    }
    match next_line(piece) {
        Some((end, after)) => {
            keep(kept, end, number)?;
            let line = judge(devices, kept.as_slice());
            let number = tell_line(&line, number, events)?;
            read_fresh(devices, kept, number, after, events)
        }
        None => {
            keep(kept, piece, number)?;
            Ok(number)
        }
    }
}

/// Reads bytes that begin with a new line. What `kept` has goes away, unless memory runs out.
fn read_fresh(
    devices: &[(String, DeviceId)],
    kept: &mut Vec<u8>,
    number: u64,
    bytes: &[u8],
    events: &mut Vec<RawEvent>,
) -> Result<u64, LineError>
    requires { IsKept kept.old.items (vec_capacity kept.old) }
    ensures kept { IsKept kept.new.items (vec_capacity kept.new) }
    ensures read { ReadsPiece result (from_parts (known devices.now) number (parts bytes.now))
        events.old.items events.new.items kept.old.items kept.new.items }
{
    let (number, begun) = read_lines(devices, number, bytes, events)?;
    kept.clear();
    keep(kept, begun, number)?;
    Ok(number)
}

/// Appends bytes to a line that has begun, unless it gets too long.
fn keep(kept: &mut Vec<u8>, more: &[u8], number: u64) -> Result<(), LineError>
    requires kept { IsKept kept.old.items (vec_capacity kept.old) }
    requires unended { line_len more.now ≡ length more.now }
    ensures kept { IsKept kept.new.items (vec_capacity kept.new) }
    ensures longer { Keeps result (kept.old.items ++ more.now) number kept.old.items kept.new.items }
{
    if kept.len() + more.len() > MAX_LINE {
        return Err(LineError::TooLong { line: number });
    }
    match kept.extend_from_slice(more) {
        Ok(()) => Ok(()),
        Err(_) => unreachable!(),
    }
}
