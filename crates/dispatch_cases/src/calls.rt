//! Calls as they are spelled.
use dispatch_calls::{Call, Terms};
use input_types::{Args, Body, DeviceId, DisplayId, Limit, Message, Moment};
use key_repeat::Repeats;
use std::alloc::Global;
use stream_text::StreamLine;
use touch_region::{Rect, Region};
use window_snapshot::{Occlusion, Percent, Snapshot, Window};

/// A device with this number.
pub(crate) fn device(n: u64) -> Option<DeviceId> {
    DeviceId::new(u8::try_from(n).ok()?)
}

/// A display with this number.
pub(crate) fn display(n: u64) -> Option<DisplayId> {
    DisplayId::new(u8::try_from(n).ok()?)
}

/// A channel with this number, or any other number in its place.
pub(crate) fn channel(n: u64) -> Option<u32> {
    u32::try_from(n).ok()
}

/// A pixel's place on an axis.
fn place(n: u64) -> Option<i32> {
    i32::try_from(n).ok()
}

/// A window that can be touched in its whole frame.
fn window(alloc: Global, on: [u64; 2], edges: [u64; 4], flags: u64) -> Option<Window> {
    let [left, top, right, bottom] = edges;
    let frame = Rect {
        left: place(left)?,
        top: place(top)?,
        right: place(right)?,
        bottom: place(bottom)?,
    };
    let mut rects = Vec::new(alloc);
    rects.push(frame).ok()?;
    let [number, shown] = on;
    let bits = u32::try_from(flags).ok()?;
    Some(Window {
        channel: channel(number)?,
        display: display(shown)?,
        frame,
        region: Region::new(rects).ok()?,
        flags: bitflags::Flags::from_bits_retain(bits),
        owner: 0,
        opacity: Percent::whole(),
        occlusion: Occlusion::Block,
    })
}

/// The windows of a snapshot, each of seven numbers.
fn snapshot(alloc: Global, numbers: &[u64]) -> Option<Snapshot> {
    let mut windows = Vec::new(alloc);
    for piece in numbers.chunks(7) {
        match piece {
            [channel, display, left, top, right, bottom, flags] => {
                let edges = [*left, *top, *right, *bottom];
                windows
                    .push(window(alloc, [*channel, *display], edges, *flags)?)
                    .ok()?;
            }
            _ => return None,
        }
    }
    Snapshot::new(windows).ok()
}

/// The windows from a time on.
pub(crate) fn windows(alloc: Global, numbers: &[u64]) -> Option<Call> {
    match numbers {
        [now, rest @ ..] => Some(Call::Windows {
            now: Moment::new(*now)?,
            snapshot: snapshot(alloc, rest)?,
        }),
        [] => None,
    }
}

/// A message line with the number 1.
fn numbered(alloc: Global, said: &[u8]) -> Option<Vec<u8>> {
    let mut line = Vec::new(alloc);
    line.extend_from_slice(b"1 ").ok()?;
    line.extend_from_slice(said).ok()?;
    Some(line)
}

/// What a device hands in, which is spelled as a message is, without its number.
pub(crate) fn notify(alloc: Global, said: &[u8]) -> Option<Call> {
    read(&numbered(alloc, said)?)
}

/// The args of a message line.
fn read(line: &[u8]) -> Option<Call> {
    match StreamLine::read(line) {
        Some(StreamLine::Message(message)) => notified(&message),
        _ => None,
    }
}

/// The args in a message, at its time.
fn notified(message: &Message) -> Option<Call> {
    let args = match &message.body {
        Body::Motion(motion) => Args::Motion(*motion),
        Body::Key(key) => Args::Key(key.key),
        Body::Focus(_) => return None,
    };
    Some(Call::Notify {
        now: message.moment,
        args,
    })
}

/// A call that is nothing but numbers.
pub(crate) fn call(word: &[u8], numbers: &[u64]) -> Option<Call> {
    match numbers {
        [a] => call_of_one(word, *a),
        [a, b] => call_of_two(word, *a, *b),
        [a, b, c] => call_of_three(word, *a, *b, *c),
        _ => None,
    }
}

/// A call of one number.
fn call_of_one(word: &[u8], a: u64) -> Option<Call> {
    match word {
        b"open" => Some(Call::Open {
            terms: Terms {
                limit: Limit::new(a)?,
                repeats: Some(Repeats::android()),
            },
        }),
        b"pump" => Some(Call::Pump {
            now: Moment::new(a)?,
        }),
        b"tick" => Some(Call::Tick {
            now: Moment::new(a)?,
        }),
        b"receive" => Some(Call::Receive {
            channel: channel(a)?,
        }),
        _ => None,
    }
}

/// A call of two numbers.
fn call_of_two(word: &[u8], a: u64, b: u64) -> Option<Call> {
    let now = Moment::new(a)?;
    match word {
        b"focus" => Some(Call::FocusOn {
            now,
            display: display(b)?,
            channel: None,
            keys: true,
        }),
        b"reset" => Some(Call::Notify {
            now,
            args: Args::Reset(device(b)?),
        }),
        b"remove" => Some(Call::Remove {
            now,
            channel: channel(b)?,
        }),
        _ => None,
    }
}

/// A call of three numbers.
fn call_of_three(word: &[u8], a: u64, b: u64, c: u64) -> Option<Call> {
    let now = Moment::new(a)?;
    match word {
        b"focus" => Some(Call::FocusOn {
            now,
            display: display(b)?,
            channel: Some(channel(c)?),
            keys: true,
        }),
        b"finish" => Some(Call::Finish {
            now,
            channel: channel(b)?,
            seq: c,
        }),
        b"pilfer" => Some(Call::Pilfer {
            now,
            channel: channel(b)?,
            device: device(c)?,
        }),
        _ => None,
    }
}
