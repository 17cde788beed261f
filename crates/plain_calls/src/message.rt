//! Messages as C hands them in.
ghost use Rattle.std.specs.Prelude.{◌≡◌};

use crate::numbers::{device_of, is_device, moment_of};
use crate::pointers::{action_of, pointers_of};
use input_types::{Args, Body, DeviceId, KeyArgs, KeyMsg, Message, Motion};

/// A pointer of a motion: `struct inputflinger_pointer`.
#[repr(C)]
#[derive(Clone, Copy, Debug)]
pub struct PlainPointer {
    pub x: i32,
    pub y: i32,
    /// 0 to 31.
    pub id: u32,
}

/// A message: `struct inputflinger_message`. Its kind says which of the other numbers are read.
#[repr(C)]
#[derive(Clone, Copy, Debug)]
pub struct PlainMessage {
    pub seq: u64,
    /// At most 10^18.
    pub moment_us: u64,
    /// 0 for a motion, 1 for a key, 2 for the focus; 3 for a device that lost events.
    pub kind: u32,
    pub flags: u32,
    /// The meta bits of a key.
    pub meta: u32,
    pub repeat: u32,
    pub scan: u16,
    pub code: u16,
    /// 1 to 8.
    pub device: u8,
    /// The number of a motion's action, as `getActionMasked` gives it.
    pub action: u8,
    pub index: u8,
    /// How many pointers a motion has, at most 16.
    pub count: u8,
    /// 1 if a key goes down, 0 if it goes up.
    pub down: u8,
    /// 1 if the window gains the focus, 0 if it loses it.
    pub focus: u8,
    /// The members up to here are those of the first release.
    pub pointers: [PlainPointer; 16],
    /// The number that the client was opened with. Only messages that a client gets have it; elsewhere it is ignored.
    pub user_data: u64,
}

impl PlainMessage {
    ghost use Rattle.plain_calls.specs.Plain.{message_of, args_of, body_of, motion_of, key_msg_of};

    /// The message; None if a number is out of its range.
    pub fn read(&self) -> Option<Message>
        ensures { result ≡ message_of self.now }
    {
        let moment = moment_of(self.moment_us)?;
        let body = self.body()?;
        Some(Message {
            seq: self.seq,
            moment,
            body,
        })
    }

    /// The message as args of a device; None if a number is out of its range. A key's flags and its repeat number are
    /// ignored.
    pub(crate) fn args(&self) -> Option<Args>
        ensures { result ≡ args_of self.now }
    {
        if self.kind == 0 {
            self.motion().map(Args::Motion)
        } else if self.kind == 1 {
            self.key().map(|told| Args::Key(told.key))
        } else if self.kind == 3 {
            device_of(self.device).map(Args::Reset)
        } else {
            None
        }
    }

    /// The body of the message; None if a number is out of its range.
    fn body(&self) -> Option<Body>
        ensures { result ≡ body_of self.now }
    {
        if self.kind == 0 {
            self.motion().map(Body::Motion)
        } else if self.kind == 1 {
            self.key().map(Body::Key)
        } else if self.kind == 2 && self.focus <= 1 {
            Some(Body::Focus(self.focus == 1))
        } else {
            None
        }
    }

    fn motion(&self) -> Option<Motion>
        ensures { result ≡ motion_of self.now }
    {
        if !is_device(self.device) || self.count > 16 {
            return None;
        }
        let device = DeviceId::new(self.device).unwrap();
        let action = action_of(self.action)?;
        let pointers = pointers_of(self.pointers.split_at(self.count as usize).0)?;
        Some(Motion {
            device,
            action,
            index: self.index,
            flags: self.flags,
            pointers,
        })
    }

    fn key(&self) -> Option<KeyMsg>
        ensures { result ≡ key_msg_of self.now }
    {
        if !is_device(self.device) || self.down > 1 {
            return None;
        }
        Some(KeyMsg {
            key: KeyArgs {
                device: DeviceId::new(self.device).unwrap(),
                scan: self.scan,
                code: self.code,
                meta: self.meta,
                down: self.down == 1,
            },
            flags: self.flags,
            repeat: self.repeat,
        })
    }
}
