//! How many keys are down of each code that sets meta bits.
ghost use Rattle.std.specs.Prelude.{◌≡◌, ◌<◌, ◌≤◌, ◌^◌, nat_lt, if◌then◌else◌};
ghost use Rattle.std.specs.List.{list_any};
ghost use Rattle.key_mapper.specs.Held.{AreBelow, bits as bits_of, sets_meta as sets_bits, with_key, without_key};

use key_layout::key_code;

/// The numbers of keys that are down, by key code. Several scan codes may have one key code.
#[derive(Clone, Copy)]
pub(crate) struct Modifiers {
    pub alt_left: usize,
    pub alt_right: usize,
    pub shift_left: usize,
    pub shift_right: usize,
    pub ctrl_left: usize,
    pub ctrl_right: usize,
}

impl Modifiers {
    /// No key is down.
    pub fn none() -> Modifiers
        ensures { result
            ≡ record { alt_left = 0; alt_right = 0; shift_left = 0; shift_right = 0; ctrl_left = 0; ctrl_right = 0 } }
    {
        Modifiers {
            alt_left: 0,
            alt_right: 0,
            shift_left: 0,
            shift_right: 0,
            ctrl_left: 0,
            ctrl_right: 0,
        }
    }

    /// One key more of this code is down.
    pub fn add(&mut self, code: u16)
        requires { AreBelow (2 ^ 63) self.old }
        ensures { self.new ≡ with_key self.old code }
    {
        match code {
            key_code::ALT_LEFT => self.alt_left += 1,
            key_code::ALT_RIGHT => self.alt_right += 1,
            key_code::SHIFT_LEFT => self.shift_left += 1,
            key_code::SHIFT_RIGHT => self.shift_right += 1,
            key_code::CTRL_LEFT => self.ctrl_left += 1,
            key_code::CTRL_RIGHT => self.ctrl_right += 1,
            _ => {}
        }
    }

    /// One key less of this code is down.
    pub fn remove(&mut self, code: u16)
        ensures { self.new ≡ without_key self.old code }
    {
        match code {
            key_code::ALT_LEFT => self.alt_left = self.alt_left.saturating_sub(1),
            key_code::ALT_RIGHT => self.alt_right = self.alt_right.saturating_sub(1),
            key_code::SHIFT_LEFT => self.shift_left = self.shift_left.saturating_sub(1),
            key_code::SHIFT_RIGHT => self.shift_right = self.shift_right.saturating_sub(1),
            key_code::CTRL_LEFT => self.ctrl_left = self.ctrl_left.saturating_sub(1),
            key_code::CTRL_RIGHT => self.ctrl_right = self.ctrl_right.saturating_sub(1),
            _ => {}
        }
    }

    /// The meta bits after a key with a code went down or up, from those before. A key that sets no meta bit leaves
    /// them as they were.
    pub fn bits_after(&self, code: u16, before: u32) -> u32
        ensures { result ≡ (if sets_bits code then bits_of self.now else before) }
    {
        if sets_meta(code) { self.bits() } else { before }
    }

    /// The meta bits that these keys set, by KeyEvent's constants `META_SHIFT_ON` to `META_CTRL_RIGHT_ON`.
    pub fn bits(&self) -> u32
        ensures { result ≡ bits_of self.now }
    {
        bit(some(&[self.shift_left, self.shift_right]), 0x1)
            + bit(some(&[self.alt_left, self.alt_right]), 0x2)
            + bit(some(&[self.alt_left]), 0x10)
            + bit(some(&[self.alt_right]), 0x20)
            + bit(some(&[self.shift_left]), 0x40)
            + bit(some(&[self.shift_right]), 0x80)
            + bit(some(&[self.ctrl_left, self.ctrl_right]), 0x1000)
            + bit(some(&[self.ctrl_left]), 0x2000)
            + bit(some(&[self.ctrl_right]), 0x4000)
    }
}

/// Whether keys of this code set meta bits.
fn sets_meta(code: u16) -> bool
    ensures { result ≡ sets_bits code }
{
    code == key_code::ALT_LEFT
        || (code == key_code::ALT_RIGHT
            || (code == key_code::SHIFT_LEFT
                || (code == key_code::SHIFT_RIGHT
                    || (code == key_code::CTRL_LEFT || code == key_code::CTRL_RIGHT))))
}

/// Whether one of these numbers is not 0.
fn some(numbers: &[usize]) -> bool
    ensures { result ≡ list_any (λ n. nat_lt 0 n) numbers.now }
{
    numbers.iter().any(|n| 0 < *n)
}

/// The bit, if it is on.
fn bit(on: bool, bit: u32) -> u32
    ensures value { result ≡ (if on then bit else 0) }
    ensures within { result ≤ bit }
{
    if on { bit } else { 0 }
}
