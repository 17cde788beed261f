//! Keys as texts.
ghost use Rattle.std.specs.Prelude.{◌≡◌, ◌+◌, ◌≤◌, ◌++◌, codes, cond, drop};
ghost use Rattle.input_types.specs.declared.message.Body.TheVariants.{Key};
ghost use Rattle.stream_text.specs.Spelling.{body, canceled, key, key_end};

use crate::writing::flags::prepend_canceled;
use crate::writing::prepend::{Room, prepend_labeled, prepend_number, prepend_word};
use input_types::KeyMsg;

#[tactic(auto, unfolding(crate::specs::Spelling::key))]
fn prepend_key(line: &mut Room, end: usize, device: u8, scan: u16, code: u16, meta: u32) -> usize
    requires { (90 ≤ end) × (end ≤ 1280) }
    ensures within { (result ≤ end) × (end ≤ result + 90) }
    ensures written { drop result line.new ≡ key device scan code meta ++ drop end line.old }
{
    let at = prepend_labeled(line, end, " ", u64::from(meta));
    let at = prepend_labeled(line, at, " ", u64::from(code));
    let at = prepend_labeled(line, at, " ", u64::from(scan));
    prepend_labeled(line, at, "key ", u64::from(device))
}

fn prepend_direction(line: &mut Room, end: usize, down: bool, flags: u32) -> usize
    requires { (13 ≤ end) × (end ≤ 1280) }
    ensures within { (result ≤ end) × (end ≤ result + 13) }
    ensures written { drop result line.new
        ≡ cond down (codes " DOWN ") (codes " UP" ++ canceled flags ++ codes " ") ++ drop end line.old }
{
    if down {
        return prepend_word(line, end, " DOWN ");
    }
    let at = prepend_word(line, end, " ");
    let at = prepend_canceled(line, at, flags);
    prepend_word(line, at, " UP")
}

#[tactic(auto, unfolding(crate::specs::Spelling::key_end))]
fn prepend_key_end(line: &mut Room, end: usize, down: bool, flags: u32, repeat: u32) -> usize
    requires { (33 ≤ end) × (end ≤ 1280) }
    ensures within { (result ≤ end) × (end ≤ result + 33) }
    ensures written { drop result line.new ≡ key_end down flags repeat ++ drop end line.old }
{
    let at = prepend_number(line, end, u64::from(repeat));
    prepend_direction(line, at, down, flags)
}

/// Writes a key message in front of `end`, and returns where it begins.
pub(crate) fn prepend_key_message(line: &mut Room, end: usize, told: &KeyMsg) -> usize
    requires { (123 ≤ end) × (end ≤ 1280) }
    ensures within { (result ≤ end) × (end ≤ result + 123) }
    ensures written { drop result line.new ≡ body (Key told.now) ++ drop end line.old }
{
    let at = prepend_key_end(line, end, told.key.down, told.flags, told.repeat);
    prepend_key(
        line,
        at,
        told.key.device.get(),
        told.key.scan,
        told.key.code,
        told.key.meta,
    )
}
