//! Messages as C gets them.
ghost use Rattle.std.specs.Prelude.{◌≡◌, ◌≤◌, ◌++◌, map, drop, length};
ghost use Rattle.plain_calls.specs.Told.{plain_pointer, numbered, with_motion, with_key, with_body, with_user_data, plain_message};

use crate::message::{PlainMessage, PlainPointer};
use crate::numbers::flag;
use input_types::{Body, KeyMsg, Message, Moment, Motion, Pointer};

const NO_POINTER: PlainPointer = PlainPointer { x: 0, y: 0, id: 0 };

impl PlainMessage {
    /// A message by its numbers; those that its kind does not have are 0.
    pub(crate) fn of(message: &Message) -> PlainMessage
        ensures { result ≡ plain_message message.now }
    {
        let mut plain = PlainMessage::numbered(message.seq, message.moment);
        plain.send(&message.body);
        plain
    }

    /// A message that a client gets, with the number that the client was opened with.
    pub(crate) fn to(message: &Message, user_data: Option<u64>) -> PlainMessage
        ensures { result ≡ with_user_data user_data (plain_message message.now) }
    {
        let mut plain = PlainMessage::of(message);
        plain.add(user_data);
        plain
    }

    /// Fills in the number that a client was opened with.
    fn add(&mut self, user_data: Option<u64>)
        ensures { self.new ≡ with_user_data user_data self.old }
    {
        if let Some(user_data) = user_data {
            self.user_data = user_data;
        }
    }

    /// A message with only its number and its time filled in.
    fn numbered(seq: u64, moment: Moment) -> PlainMessage
        ensures { result ≡ numbered seq moment }
    {
        PlainMessage {
            seq,
            moment_us: moment.get(),
            kind: 0,
            flags: 0,
            meta: 0,
            repeat: 0,
            scan: 0,
            code: 0,
            device: 0,
            action: 0,
            index: 0,
            count: 0,
            down: 0,
            focus: 0,
            pointers: [NO_POINTER; 16],
            user_data: 0,
        }
    }

    /// Fills in the message's body.
    fn send(&mut self, body: &Body)
        ensures { self.new ≡ with_body body.now self.old }
    {
        match body {
            Body::Motion(motion) => self.send_motion(motion),
            Body::Key(key) => self.send_key(key),
            Body::Focus(has) => {
                self.kind = 2;
                self.focus = flag(*has);
            }
        }
    }

    fn send_motion(&mut self, motion: &Motion)
        ensures { self.new ≡ with_motion motion.now self.old }
    {
        self.kind = 0;
        self.flags = motion.flags;
        self.device = motion.device.get();
        self.action = motion.action.number();
        self.index = motion.index;
        self.count = motion.pointers.len() as u8;
        self.pointers = [NO_POINTER; 16];
        write_pointers(&mut self.pointers, motion.pointers.as_slice());
    }

    fn send_key(&mut self, told: &KeyMsg)
        ensures { self.new ≡ with_key told.now self.old }
    {
        self.kind = 1;
        self.flags = told.flags;
        self.meta = told.key.meta;
        self.repeat = told.repeat;
        self.scan = told.key.scan;
        self.code = told.key.code;
        self.device = told.key.device.get();
        self.down = flag(told.key.down);
    }
}

/// A pointer by its numbers.
fn plain_pointer(pointer: &Pointer) -> PlainPointer
    ensures { result ≡ plain_pointer pointer.now }
{
    PlainPointer {
        x: pointer.at.x,
        y: pointer.at.y,
        id: u32::from(pointer.id.get()),
    }
}

/// Writes pointers to the first places.
fn write_pointers(places: &mut [PlainPointer; 16], pointers: &[Pointer])
    requires { length pointers.now ≤ 16 }
    ensures { places.new ≡ map plain_pointer pointers.now ++ drop (length pointers.now) places.old }
{
    for i in 0..pointers.len() {
        places[i] = plain_pointer(&pointers[i]);
    }
}
