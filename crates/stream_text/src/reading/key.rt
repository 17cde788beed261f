//! Reading a key.
ghost use Rattle.std.specs.Prelude.{◌≡◌, option_map};
ghost use Rattle.stream_text.specs.MessageLine.{codes_at, key_read, way_at};

use crate::reading::flags::canceled;
use crate::reading::number::{device, labeled, number, past};
use input_types::{KeyArgs, KeyMsg};

#[tactic(auto, unfolding(crate::specs::MessageLine::way_at))]
fn way(bytes: &[u8]) -> Option<(bool, u32, &[u8])>
    ensures { option_map (λ read. (read.0, read.1, read.2.now)) result ≡ way_at bytes.now }
{
    if let Some(rest) = past(" DOWN ", bytes) {
        return Some((true, 0, rest));
    }
    let rest = past(" UP", bytes)?;
    let (flags, rest) = canceled(rest);
    let rest = past(" ", rest)?;
    Some((false, flags, rest))
}

/// The scan code, the key code and the meta bits of a key.
#[tactic(auto, unfolding(crate::specs::MessageLine::codes_at))]
fn codes(bytes: &[u8]) -> Option<(u16, u16, u32, &[u8])>
    ensures { option_map (λ read. (read.0, read.1, read.2, read.3.now)) result ≡ codes_at bytes.now }
{
    let (scan, rest) = labeled(" ", 65_535, bytes)?;
    let (code, rest) = labeled(" ", 65_535, rest)?;
    let (meta, rest) = labeled(" ", 4_294_967_295, rest)?;
    Some((scan as u16, code as u16, meta as u32, rest))
}

#[tactic(auto, unfolding(crate::specs::MessageLine::key_read))]
pub(crate) fn key(bytes: &[u8]) -> Option<KeyMsg>
    ensures { result ≡ key_read bytes.now }
{
    let Some((device, rest)) = device(bytes) else {
        return None;
    };
    let (scan, code, meta, rest) = codes(rest)?;
    let (down, flags, rest) = way(rest)?;
    let (repeat, rest) = number(4_294_967_295, rest)?;
    if !rest.is_empty() {
        return None;
    }
    Some(KeyMsg {
        key: KeyArgs {
            device,
            scan,
            code,
            meta,
            down,
        },
        flags,
        repeat: repeat as u32,
    })
}
