//! The keys that are down on one device.
ghost use Rattle.std.specs.Prelude.{◌≡◌, ◌<◌, ◌/◌, ℕ, false, replicate, slice_index_or, IfOk};
ghost use Rattle.input_types.specs.DeviceRule.{with_key};
ghost use Rattle.dispatcher.specs.Down.{IsFirstDown};
ghost use Rattle.dispatcher.specs.InboundArgs.Keys.{has_key};

use bits32::Bits32;
use std::alloc::{AllocError, Global};
use std::marker::Model;

/// A bit for each scan code. It has all of its memory from the start, so no key needs any.
#[derive(Drop)]
pub(crate) struct KeysDown {
    /// The codes 32 k to 32 k + 31 stand in the set with the place k.
    sets: Vec<Bits32>,
}

impl Model for KeysDown {
    ghost use Rattle.std.specs.Prelude.{◌≡◌, ℕ, List, length};

    ghost Value = { List ℕ };

    ghost view = { λ k. k.sets.items };

    ghost invariant = { λ k. length k.sets.items ≡ 2048 };
}

impl KeysDown {
    /// No key is down.
    pub(crate) fn new(alloc: Global) -> Result<KeysDown, AllocError>
        ensures { IfOk result (λ k. (scan : ℕ) → has_key k scan ≡ false) }
    {
        let sets = empty_sets(alloc, 2048)?;
        Ok(KeysDown { sets })
    }

    /// Whether the key with a scan code is down.
    pub(crate) fn has(&self, scan: u16) -> bool
        ensures { result ≡ has_key self.now scan }
    {
        self.sets[usize::from(scan / 32)].has((scan % 32) as u8)
    }

    /// The set with the 32 scan codes of this one.
    fn set_of(&self, code: u32) -> Bits32
        requires { code < 65536 }
        ensures { result ≡ slice_index_or self.now (code / 32) 0 }
    {
        self.sets[(code / 32) as usize]
    }

    /// The first key that is down, from a scan code on. A set without a key is passed over at once.
    pub(crate) fn first(&self, from: u32) -> Option<u16>
        ensures { IsFirstDown (has_key self.now) from result }
    {
        let mut code = from;
        'codes: while code < 65_536 {
            let set = self.set_of(code);
            if set.bits() == 0 {
                code = (code / 32 + 1) * 32;
            } else if set.has((code % 32) as u8) {
                return Some(code as u16);
            } else {
                code += 1;
            }
        }
        None
    }

    /// Marks the key with a scan code as down or as up.
    pub(crate) fn set(&mut self, scan: u16, down: bool)
        ensures { (s : ℕ) → has_key self.new s ≡ with_key (has_key self.old) scan down s }
    {
        let set = &mut self.sets[usize::from(scan / 32)];
        let code = (scan % 32) as u8;
        if down {
            set.mark(code);
        } else {
            set.clear(code);
        }
    }

    /// Marks all keys as up.
    pub(crate) fn clear(&mut self)
        ensures { (scan : ℕ) → has_key self.new scan ≡ false }
    {
        self.sets.fill(Bits32::empty());
    }
}

/// This many empty sets.
fn empty_sets(alloc: Global, count: usize) -> Result<Vec<Bits32>, AllocError>
    ensures { IfOk result (λ v. v.items ≡ replicate count 0) }
{
    vec![in alloc; Bits32::empty(); count]
}
