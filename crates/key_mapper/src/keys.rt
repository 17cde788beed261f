//! The keys of a device.
ghost use Rattle.std.specs.Prelude.{◌≡◌, List, [], ◌∷◌, IfOk, OnOk, OnErr, pos};
ghost use Rattle.key_mapper.specs.Key.{KeyEvent, key_args_of};
ghost use Rattle.key_mapper.specs.Held.{KeysStandFor, bits, counts};

use crate::modifiers::Modifiers;
use input_types::{DeviceId, KeyArgs};
use key_layout::Layout;
use std::alloc::{AllocError, Global};
use std::collections::BTreeMap;
use std::marker::Model;

/// The keys of one device that are down, by scan code. What each event costs grows with the logarithm of how many are
/// down.
#[derive(Drop)]
pub struct Keys {
    device: DeviceId,
    layout: Layout,
    /// The keys that are down, with their key codes.
    down: BTreeMap<u16, u16>,
    modifiers: Modifiers,
    /// The meta bits that the keys set.
    meta: u32,
}

impl Model for Keys {
    ghost use Rattle.key_mapper.specs.Held.{Held, IsHeld};

    ghost Value = { Held };

    ghost view = { λ k. record { device = k.device; layout = k.layout; down = k.down.entries } };

    ghost invariant = { λ k. IsHeld k.down.entries k.modifiers k.meta };
}

impl Keys {
    /// The keys of a device, none of them down. Its layout says which key code each scan code has.
    pub fn new(alloc: Global, device: DeviceId, layout: Layout) -> Keys
        ensures state { KeysStandFor [] result }
        ensures device { result.device ≡ device }
        ensures layout { result.layout ≡ layout }
    {
        Keys {
            device,
            layout,
            down: BTreeMap::new(alloc),
            modifiers: Modifiers::none(),
            meta: 0,
        }
    }

    /// Takes the next EV_KEY event. Returns the key that it moved, with the meta bits of all keys that are down after
    /// it.
    ///
    /// Value 1 is a press, and 0 a release. None comes exactly if the value is another one (2 is the kernel's own
    /// repeat), for a press of a key that is down, and for a release of one that is up.
    pub fn take(&mut self, scan: u16, value: i32) -> Result<Option<KeyArgs>, AllocError>
        ensures ok { (past : List KeyEvent) → KeysStandFor past self.old
            → IfOk result (λ key. key
            ≡ key_args_of self.old.device self.old.layout past (record { scan = scan; value = value })) }
        ensures after { (past : List KeyEvent) → KeysStandFor past self.old
            → OnOk result (KeysStandFor (record { scan = scan; value = value } ∷ past) self.new) }
        ensures device { self.new.device ≡ self.old.device }
        ensures layout { self.new.layout ≡ self.old.layout }
        ensures err { OnErr result (self.new ≡ self.old) }
    {
        match value {
            1 => self.press(scan),
            0 => Ok(self.release(scan)),
            _ => Ok(None),
        }
    }

    fn press(&mut self, scan: u16) -> Result<Option<KeyArgs>, AllocError>
        ensures ok { (past : List KeyEvent) → KeysStandFor past self.old
            → IfOk result (λ key. key
            ≡ key_args_of self.old.device self.old.layout past (record { scan = scan; value = pos 1 })) }
        ensures after { (past : List KeyEvent) → KeysStandFor past self.old
            → OnOk result (KeysStandFor (record { scan = scan; value = pos 1 } ∷ past) self.new) }
        ensures device { self.new.device ≡ self.old.device }
        ensures layout { self.new.layout ≡ self.old.layout }
        ensures err { OnErr result (self.new ≡ self.old) }
    {
        if self.down.contains_key(&scan) {
            return Ok(None);
        }
        let code = self.layout.code_of(scan);
        // A map has fewer than 2^63 keys, so no count runs over.
        let _others = self.down.len();
        self.down.insert(scan, code)?;
        self.modifiers.add(code);
        self.meta = self.modifiers.bits_after(code, self.meta);
        Ok(Some(self.moved(scan, code, true)))
    }

    fn release(&mut self, scan: u16) -> Option<KeyArgs>
        ensures ok { (past : List KeyEvent) → KeysStandFor past self.old
            → result ≡ key_args_of self.old.device self.old.layout past (record { scan = scan; value = pos 0 }) }
        ensures after { (past : List KeyEvent) → KeysStandFor past self.old
            → KeysStandFor (record { scan = scan; value = pos 0 } ∷ past) self.new }
        ensures device { self.new.device ≡ self.old.device }
        ensures layout { self.new.layout ≡ self.old.layout }
    {
        let code = self.down.remove(&scan)?;
        self.modifiers.remove(code);
        self.meta = self.modifiers.bits_after(code, self.meta);
        Some(self.moved(scan, code, false))
    }

    /// A key that moved, with the meta bits of the keys that are down now.
    fn moved(&self, scan: u16, code: u16, down: bool) -> KeyArgs
        ensures { result
            ≡ record {
              device = self.now.device;
              scan = scan;
              code = code;
              meta = bits (counts self.now.down);
              down = down;
            } }
    {
        KeyArgs {
            device: self.device,
            scan,
            code,
            meta: self.meta,
            down,
        }
    }

    /// No key is down any more.
    pub fn reset(&mut self)
        ensures state { KeysStandFor [] self.new }
        ensures device { self.new.device ≡ self.old.device }
        ensures layout { self.new.layout ≡ self.old.layout }
    {
        self.down.clear();
        self.modifiers = Modifiers::none();
        self.meta = 0;
    }
}
