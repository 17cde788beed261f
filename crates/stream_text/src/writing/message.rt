//! Messages as lines.
ghost use Rattle.std.specs.Prelude.{◌≡◌, ◌≤◌, [], ◌∷◌, ◌++◌, length, drop, IfOk, OnOk, OnErr};
ghost use Rattle.stream_text.specs.Spelling.{body, message_line, message_lines, numbered};
ghost use Rattle.dispatcher.specs.InputChannel.Moves.{moves_from};
ghost use Rattle.stream_text.specs.KeptText.{Holds, Moves};

use crate::writing::kept_digits::{Counted, Timed};
use crate::writing::kept_pointers::KeptPointers;
use crate::writing::key::prepend_key_message;
use crate::writing::motion::{prepend_motion, prepend_move, prepend_moved};
use crate::writing::prepend::{ROOM, Room, prepend_word};
use input_types::{Body, DeviceId, Message, Moment, MotionAction, Pixel, Pointers};
use std::alloc::AllocError;
use std::marker::Model;

/// Writes what a message says at the end of the buffer, and returns where it begins. No Move is kept then.
#[inline(never)]
fn prepend_body(line: &mut Room, kept: &mut KeptPointers, told: &Body) -> usize
    requires { Holds line.old kept.old.list kept.old.at }
    ensures within { (134 ≤ result) × (result ≤ kept.new.at) }
    ensures moves { kept.new.moves ≡ 0 }
    ensures holds { Holds line.new kept.new.list kept.new.at }
    ensures written { drop result line.new ≡ body told.now ++ 10 ∷ [] }
    ensures long { length line.new ≡ 1280 }
{
    match told {
        Body::Motion(motion) => prepend_motion(line, kept, motion),
        Body::Key(key) => {
            let at = kept.put_none(line);
            prepend_key_message(line, at, key)
        }
        Body::Focus(has) => {
            let at = kept.put_none(line);
            prepend_word(line, at, if *has { "focus 1" } else { "focus 0" })
        }
    }
}

/// Writes what a message says at the end of the buffer if it does not stand there yet, and returns where it begins.
#[inline(always)]
fn prepend_end(line: &mut Room, kept: &mut KeptPointers, told: &Body) -> usize
    requires holds { Holds line.old kept.old.list kept.old.at }
    requires moves { Moves 134 line.old kept.old.moves kept.old.flags kept.old.list kept.old.at kept.old.front }
    ensures within { (134 ≤ result) × (result ≤ kept.new.at) }
    ensures holds { Holds line.new kept.new.list kept.new.at }
    ensures moves { Moves result line.new kept.new.moves kept.new.flags kept.new.list kept.new.at kept.new.front }
    ensures written { drop result line.new ≡ body told.now ++ 10 ∷ [] }
    ensures long { length line.new ≡ 1280 }
{
    if let Body::Motion(motion) = told {
        if motion.action == MotionAction::Move {
            return prepend_move(line, kept, motion);
        }
    }
    prepend_body(line, kept, told)
}

/// Writes the number and the time of a message in front of `end`, and returns where they begin.
#[inline(always)]
#[tactic(auto, unfolding(crate::specs::Spelling::numbered))]
fn prepend_numbered(
    line: &mut Room,
    moments: &mut Timed,
    numbers: &mut Counted,
    end: usize,
    seq: u64,
    moment: Moment,
) -> usize
    requires { (134 ≤ end) × (end ≤ 1280) }
    ensures within { result ≤ end }
    ensures written { drop result line.new ≡ numbered seq moment ++ drop end line.old }
    ensures long { length line.new ≡ 1280 }
{
    let at = prepend_word(line, end, " ");
    let at = moments.prepend(line, at, moment.get());
    let at = prepend_word(line, at, " ");
    numbers.prepend(line, at, seq)
}

/// Adds the lines of messages.
pub(crate) fn add_messages(text: &mut Vec<u8>, messages: &[Message]) -> Result<(), AllocError>
    ensures { IfOk result (λ _. text.new.items ≡ text.old.items ++ message_lines messages.now) }
{
    let mut writer = LineWriter::new();
    for message in messages {
        writer.message(message, text)?;
    }
    Ok(())
}

/// Writes the lines of messages. It makes each of them in one buffer that it keeps.
#[derive(Drop)]
pub struct LineWriter {
    line: Room,
    pointers: KeptPointers,
    moments: Timed,
    numbers: Counted,
}

impl Model for LineWriter {
    ghost use Rattle.stream_text.specs.KeptText.{Holds, Moves};

    ghost Value = { Unit {0} };

    ghost view = { λ _. tt };

    ghost invariant = { λ w. Holds w.line w.pointers.list w.pointers.at
        × Moves 134 w.line w.pointers.moves w.pointers.flags w.pointers.list w.pointers.at w.pointers.front };
}

impl LineWriter {
    /// A writer.
    pub fn new() -> LineWriter {
        LineWriter {
            line: [b'\n'; ROOM],
            pointers: KeptPointers::none(),
            moments: Timed::new(),
            numbers: Counted::new(),
        }
    }

    /// Appends the line of a message. If memory runs out, `out` is as before.
    ///
    /// A motion has ` canceled` in it if its flags except the marks are `FLAG_CANCELED`, and ` obscured` and ` partly`
    /// for its marks. The up of a key has ` canceled` if its flags are `FLAG_CANCELED`. Other flags, the index of an
    /// action that has none, and the flags of a key's down have no spelling and are not written.
    pub fn message(&mut self, message: &Message, out: &mut Vec<u8>) -> Result<(), AllocError>
        ensures ok { OnOk result (out.new.items ≡ out.old.items ++ message_line message.now) }
        ensures err { OnErr result (out.new.items ≡ out.old.items) }
    {
        let at = prepend_end(&mut self.line, &mut self.pointers, &message.body);
        let at = prepend_numbered(
            &mut self.line,
            &mut self.moments,
            &mut self.numbers,
            at,
            message.seq,
            message.moment,
        );
        out.extend_from_slice(self.line.as_slice().split_at(at).1)
    }

    /// Appends the line of a Move of these pointers of a device, with these flags and with their positions counted from
    /// an origin. If memory runs out, `out` is as before.
    #[inline(always)]
    pub fn moves(
        &mut self,
        seq: u64,
        moment: Moment,
        device: DeviceId,
        flags: u32,
        pointers: &Pointers,
        origin: Pixel,
        out: &mut Vec<u8>,
    ) -> Result<(), AllocError>
        ensures ok { OnOk result (out.new.items ≡ out.old.items ++ message_line
            (record { seq = seq; moment = moment; body = moves_from origin device flags pointers.now })) }
        ensures err { OnErr result (out.new.items ≡ out.old.items) }
    {
        let at = prepend_moved(
            &mut self.line,
            &mut self.pointers,
            device,
            flags,
            pointers,
            origin,
        );
        let at = prepend_numbered(
            &mut self.line,
            &mut self.moments,
            &mut self.numbers,
            at,
            seq,
            moment,
        );
        out.extend_from_slice(self.line.as_slice().split_at(at).1)
    }
}

/// Appends the line of a message, as `LineWriter::message` does.
pub fn message_text(message: &Message, out: &mut Vec<u8>) -> Result<(), AllocError>
    ensures ok { OnOk result (out.new.items ≡ out.old.items ++ message_line message.now) }
    ensures err { OnErr result (out.new.items ≡ out.old.items) }
{
    LineWriter::new().message(message, out)
}
