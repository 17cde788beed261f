//! The recording of a whole file.
ghost use Rattle.std.specs.Prelude.{◌≤◌, Ok, IfOk, IfErr, length};
ghost use Rattle.emit_text.specs.Emitted.{IsEmitted, IsNotSpent, Refuses};

use crate::emission::Emission;
use crate::error::EmitError;
use crate::judged_lines::JudgedLines;
use input_types::DeviceId;
use std::alloc::Global;

/// What a window was sent for the fingers of one device, as a recording of that device: the lines of the packets of
/// the first section of a channel in a stream file.
///
/// Each motion of the device that determines what is down is one packet at its moment. The file is refused as
/// `verify` refuses it; then if it has no section of the channel; then for the first motion that is too late or
/// cannot be written; and then if the recording would be too long.
pub fn emit_text(
    alloc: Global,
    bytes: &[u8],
    channel: u32,
    device: DeviceId,
) -> Result<Vec<u8>, EmitError>
    ensures ok { IfOk result (λ text. IsEmitted bytes.now channel device (Ok text.items)) }
    ensures err { IfErr result (Refuses (IsEmitted bytes.now channel device)) }
    ensures room { length bytes.now ≤ 67108864 → IfErr result IsNotSpent }
{
    let mut lines = JudgedLines::new(alloc, bytes)?;
    let mut emission = Emission::new(alloc, channel, device);
    'lines: loop {
        let Some((number, says)) = lines.next()? else {
            return emission.end();
        };
        emission.take(number, &says)?;
    }
}
