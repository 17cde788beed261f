//! Gestures of one device.
ghost use Rattle.std.specs.Prelude.{◌≡◌, ◌+◌, ◌<◌, ◌≤◌, [], ◌++◌, length, slice_set, get_or, vec_len, vec_capacity, IsOk, OnErr, OnOk};
ghost use Rattle.input_types.specs.Pointers.{unused};
ghost use Rattle.device_reader.specs.TouchMapper.Cooking.{pixel};
ghost use Rattle.device_reader.specs.TouchMapper.Gesture.{after_packet, as_args, move_of, packet_motions};

use crate::pointer_ids::Assigned;
use crate::touch_mapper::cook::Cook;
use crate::touch_mapper::gesture::{gesture, put_move};
use crate::touch_mapper::lists::put_at_pixels;
use input_types::{Args, DeviceId, Pointers};
use std::alloc::AllocError;
use std::marker::Model;

/// The gestures of one device: which pointers were down at the last packet, and at which pixels. It is `Copy` and takes
/// no memory.
#[derive(Clone, Copy, Debug, PartialEq, Eq)]
pub struct Gestures {
    device: DeviceId,
    cook: Cook,
    last: Pointers,
}

impl Model for Gestures {
    ghost use Rattle.device_reader.specs.TouchMapper.GestureState.{GestureState};

    ghost Value = { GestureState };

    ghost view = { λ g. record { device = g.device; cook = g.cook; last = g.last } };

    ghost inverse = { λ s. record { device = s.device; cook = s.cook; last = s.last } };
}

impl Gestures {
    /// The most motions that a packet makes: 16 pointers go up, the others move, and 16 go down.
    pub const MOST: usize = 33;

    /// No pointer is down.
    pub fn new(device: DeviceId, cook: Cook) -> Gestures
        ensures { result ≡ record { device = device; cook = cook; last = [] } }
    {
        Gestures {
            device,
            cook,
            last: Pointers::empty(),
        }
    }

    /// The motions that the next packet of the device makes, in their order. They are this project's own choice after
    /// Android's:
    ///
    /// * Where the same pointers are down as before, one `Move`, also if nothing moved; nothing where none is down.
    /// * Else the pointers that are gone go up by `PointerUp`, lowest id first, at their last places, beside the others
    ///   at their new ones; then one `Move` comes where a pointer that stays changed its pixel; then the new ones go
    ///   down by `PointerDown`, lowest id first. The first pointer down is a `Down`, the last one up is an `Up`.
    /// * A pointer that is cancelled goes up by a `PointerUp` with `FLAG_CANCELED`; the last one by a `Cancel`.
    ///
    /// Each motion lists all pointers that are down, the one that goes up or down included.
    ///
    /// They are added to those that are given. After out of memory the list is as it was, and with room for `MOST` more
    /// there is none.
    pub fn next(&mut self, given: &mut Vec<Args>, now: &Assigned) -> Result<(), AllocError>
        ensures ok { OnOk result (given.new.items ≡ given.old.items ++ as_args (packet_motions self.old now.now)) }
        ensures after { OnOk result (self.new ≡ after_packet self.old now.now) }
        ensures err { OnErr result (self.new ≡ self.old) }
        ensures given { OnErr result (given.new.items ≡ given.old.items) }
        ensures room { vec_len given.old + 33 ≤ vec_capacity given.old → IsOk result }
    {
        let mut now_at = Pointers::empty();
        put_at_pixels(&self.cook, now, &mut now_at);
        given.reserve(self.last.len() + now_at.len() + 1)?;
        gesture(given, self.device, now.cancelled(), &self.last, &now_at);
        self.last = now_at;
        Ok(())
    }

    /// How many pointers are down, at most 16.
    pub fn len(&self) -> usize
        ensures value { result ≡ length self.now.last }
        ensures range { result ≤ 16 }
    {
        self.last.len()
    }

    /// The pointer at index `i`, counted from 0, is at another raw position.
    #[inline(always)]
    pub fn move_to(&mut self, i: usize, x: i32, y: i32)
        ensures { self.new ≡ record {
          device = self.old.device;
          cook = self.old.cook;
          last = slice_set self.old.last i
              (record { id = (get_or self.old.last i unused).id; at = pixel self.old.cook x y });
        } }
    {
        self.last.move_to(i, self.cook.pixel(x, y));
    }

    /// Adds the `Move` of all pointers that are down, if there are any: what `next` adds for a packet with the same
    /// pointers.
    #[inline(always)]
    pub fn put_move(&self, given: &mut Vec<Args>)
        requires { vec_len given.old < vec_capacity given.old }
        ensures { given.new.items ≡ given.old.items ++ as_args (move_of self.now.device self.now.last) }
    {
        put_move(given, self.device, &self.last);
    }

    /// No pointer is down, as after `new`.
    pub fn reset(&mut self)
        ensures { self.new ≡ record { device = self.old.device; cook = self.old.cook; last = [] } }
    {
        self.last = Pointers::empty();
    }
}
