//! The router and its turns.
ghost use Rattle.std.specs.Prelude.{◌≡◌, ℕ, ◌+◌, ◌≤◌, ◌++◌, filter, length, IfOk, OnOk, OnErr, List, vec_len, vec_capacity};
ghost use Rattle.bits32.specs.Set.{is_in};
ghost use Rattle.routing_rules.specs.Pairs.{has, has_any};
ghost use Rattle.window_snapshot.specs.declared.window.Window.{Window};
ghost use Rattle.route_plain.specs.Holds.{pairs_of, is_pilfering};
ghost use Rattle.route_plain.specs.Loss.{taking_of};
ghost use Rattle.route_plain.specs.State.{scene_before, fresh};
ghost use Rattle.route_plain.specs.Route.{step_of, said_at, state_after, holds_left, with_pilferer, last_after, next_turn};

use crate::change::change_of;
use crate::hold::{Hold, Pilferer, holds_any, ids_with, is_pilfering};
use crate::loss::{Loss, is_taken};
use crate::said::said_at;
use crate::seen::Seen;
use crate::turn::{Said, Turn};
use bits32::Bits32;
use input_types::{DeviceId, Pointers};
use std::alloc::{AllocError, Global};
use std::marker::Model;
use window_snapshot::{Snapshot, Window};

/// The plain router: who holds what, as a list.
///
/// Contracts see how many turns there were, the holds in the order in which they were given, the windows that are
/// pilfering a device, and for each of the eight devices its pointers at the positions that its last motion listed.
#[derive(Drop)]
pub struct Plain {
    turns: u64,
    holds: Vec<Hold>,
    pilferers: Vec<Pilferer>,
    last: [Pointers; 8],
}

impl Model for Plain {
    ghost use Rattle.std.specs.Prelude.{◌≡◌, length};
    ghost use Rattle.route_plain.specs.State.{State};

    ghost Value = { State };

    ghost view = { λ p. record {
      turns = p.turns;
      holds = p.holds.items;
      pilferers = p.pilferers.items;
      last = p.last;
    } };

    ghost invariant = { λ p. length p.last ≡ 8 };
}

impl Plain {
    /// The router before the first turn. It allocates no memory.
    pub fn new(alloc: Global) -> Plain
        ensures { result ≡ fresh }
    {
        Plain {
            turns: 0,
            holds: Vec::new(alloc),
            pilferers: Vec::new(alloc),
            last: [Pointers::empty(); 8],
        }
    }

    /// Takes a turn, and returns what is sent: in rising channel, and for one channel in the order of sending.
    /// Positions are display pixels; the sender subtracts the origins of the windows. There is one display: each
    /// device reaches each live window.
    ///
    /// `snapshot` is the current one, in a `Windows` turn the new one. `live` is the mask of the live channels, and
    /// `able` that of those that are also responsive.
    ///
    /// The clauses hold for every turn. That nothing is sent to a channel that is not live, and that each channel's
    /// motions are a stream, rests on three conditions, which the layer above keeps: a motion may come after earlier
    /// ones of its device, by the rule of devices; `able` is within `live`; and each window that holds something is
    /// in `able` and, except in a `Windows` turn, in the snapshot. [`crate::laws::holders`] says that a turn leaves
    /// them as they were.
    ///
    /// If memory runs out, the router is as before.
    pub fn turn(
        &mut self,
        turn: &Turn,
        snapshot: &Snapshot,
        live: u64,
        able: u64,
    ) -> Result<Vec<Said>, AllocError>
        ensures said { let s = scene_before self.old snapshot.now live able in
            IfOk result (λ said. said.items ≡ said_at s (step_of turn.now snapshot.now)) }
        ensures state { let s = scene_before self.old snapshot.now live able in
            OnOk result (self.new ≡ state_after s (step_of turn.now snapshot.now) self.old) }
        ensures err { OnErr result (self.new ≡ self.old) }
    {
        let alloc = *self.holds.allocator();
        let seen = Seen {
            snapshot,
            live,
            able,
            holds: &self.holds,
            pilferers: &self.pilferers,
            last: &self.last,
        };
        let change = change_of(alloc, &seen, self.turns, turn)?;
        let said = said_at(alloc, &seen, turn, self.turns, &change)?;
        self.holds.reserve(change.gained.len())?;
        self.pilferers.reserve(1)?;
        lose(&mut self.holds, &change.loss, snapshot.windows());
        gain(&mut self.holds, &change.gained);
        note_pilferer(&mut self.pilferers, turn);
        keep_pilferers(&mut self.pilferers, &self.holds);
        note_places(&mut self.last, turn);
        self.turns = next_turn(self.turns);
        Ok(said)
    }

    /// The ids of the pointers that a window holds of a device, as bits: bit `i` stands for pointer `i`.
    pub fn holds(&self, channel: u32, device: DeviceId) -> u32
        ensures { (i : ℕ) → is_in i result ≡ has (pairs_of self.now.holds) channel device i }
    {
        ids_with(Bits32::empty(), &self.holds, channel, device).bits()
    }
}

/// Removes the holds that a turn takes.
fn lose(holds: &mut Vec<Hold>, loss: &Loss, windows: &[Window])
    ensures items { holds.new.items ≡ holds_left (taking_of windows.now loss.now) holds.old.items }
    ensures len { vec_len holds.new ≤ vec_len holds.old }
    ensures capacity { vec_capacity holds.new ≡ vec_capacity holds.old }
{
    holds.retain(|hold| !is_taken(loss, windows, hold));
}

/// Appends the holds that a turn gives; there is room.
fn gain(holds: &mut Vec<Hold>, gained: &[Hold])
    requires { vec_len holds.old + length gained.now ≤ vec_capacity holds.old }
    ensures { holds.new.items ≡ holds.old.items ++ gained.now }
{
    match holds.extend_from_slice(gained) {
        Ok(()) => {}
        Err(_) => unreachable!(),
    }
}

/// Records the window that pilfers at a turn; there is room.
fn note_pilferer(pilferers: &mut Vec<Pilferer>, turn: &Turn)
    requires { vec_len pilferers.old + 1 ≤ vec_capacity pilferers.old }
    ensures { (w : List Window) → pilferers.new.items ≡ with_pilferer (step_of turn.now w) pilferers.old.items }
{
    if let Turn::Pilfer { channel, device } = *turn {
        if !is_pilfering(pilferers, channel, device) {
            pilferers.push_reserved(Pilferer {
                window: channel,
                device,
            });
        }
    }
}

/// Removes the pilferers that hold nothing of their device.
fn keep_pilferers(pilferers: &mut Vec<Pilferer>, holds: &[Hold])
    ensures { pilferers.new.items ≡ filter (λ p. has_any (pairs_of holds.now) p.window p.device) pilferers.old.items }
{
    pilferers.retain(|pilferer| holds_any(holds, pilferer.window, pilferer.device));
}

/// Records where a motion's pointers are.
fn note_places(last: &mut [Pointers], turn: &Turn)
    requires { length last.old ≡ 8 }
    ensures { (w : List Window) → last.new ≡ last_after (step_of turn.now w) last.old }
{
    if let Turn::Pointers(motion) = turn {
        let device = motion.device.get();
        last[usize::from(device) - 1] = motion.pointers;
    }
}

/// The number of the next turn.
fn next_turn(number: u64) -> u64
    ensures { result ≡ next_turn number }
{
    if number < u64::MAX {
        number + 1
    } else {
        number
    }
}
