//! The calls of a turnstile.
ghost use Rattle.std.specs.Prelude.{◌≡◌, ℕ, ◌+◌, ◌^◌, ◌<◌, false, true, [], Some, IfOk, IsOk};
ghost use Rattle.turnstile.specs.Views.{newcomer, missed, freed, next_seat, split_off, together};
ghost use Rattle.turnstile.specs.Answers.{TryAnswers, Answers, LookAnswers, Closes};
ghost use Rattle.turnstile.specs.Idle.{IsIdle};
ghost use Rattle.turnstile.specs.Seats.{view, IsOf};
ghost use Rattle.turnstile.specs.Taken.{Holding, Taken, Waited, Served};

use crate::machine::{Machine, Placed, TryRefused};
use crate::rule::{Commit, Draw, Free, HandOut, Look, Take, TakeIn};
use crate::turnstile::{Seat, Token, Turnstile};
use atomic_table::Table;
use std::alloc::{AllocError, Global};
use std::snapshot::Snapshot;
use std::sync::Wait;
use std::sync::atomic::{AtomicU64, Ordering};

// The words and the slot of the table.
const PLACES: usize = 0;

const LOCK: usize = 1;

const MACHINE: usize = 0;

impl<M: Machine> Seat<M> {
    /// The number, which no other seat of the turnstile has.
    pub fn number(&self) -> u64
        ensures { result ≡ (view self.now).mine.number }
    {
        self.number
    }

    /// How many entries of the history the seat has seen.
    pub fn seen(&self) -> u64
        ensures { result ≡ (view self.now).seen }
    {
        self.seen
    }

    /// How many seats were split off from this one; 0 for every number but 0.
    pub fn made(&self) -> u64
        ensures { result ≡ (view self.now).mine.made }
    {
        self.made
    }
}

impl<M: Machine> Turnstile<M> {
    // Tries to take the lock, and with it the machine's slot.
    fn take(&self, token: &mut Token<M>) -> bool
        requires { (token.old.table_id ≡ self.now.table.shared.table_id) × IsIdle token.old.me }
        ensures same { token.new.table_id ≡ token.old.table_id }
        ensures taken { result ≡ true → Taken M.legal M.setup M.history token.old.me token.new.me }
        ensures missed { result ≡ false → token.new.me ≡ (missed token.old.me.0, []) }
    {
        self.table
            .shared
            .compare_exchange::<Take>(token, LOCK, 0, 1)
            == 0
    }

    // Frees the lock, which returns the slot, and wakes one waiting thread.
    fn free(&self, token: &mut Token<M>)
        requires { (token.old.table_id ≡ self.now.table.shared.table_id)
            × Holding M.legal M.setup M.history token.old.me }
        ensures same { token.new.table_id ≡ token.old.table_id }
        ensures freed { token.new.me ≡ (freed token.old.me.0, []) }
    {
        self.table.shared.store::<Free>(token, LOCK, 0);
        if self.sleepers.load(Ordering::SeqCst) != 0 {
            self.table.shared.wake_one(LOCK);
        }
    }

    // What a seat does with the turn: takes the machine out, steps it, puts it back, commits the entry and frees the
    // lock. The entry is committed after the machine is back, since only a held machine shows a step its history.
    fn serve(
        &self,
        token: &mut Token<M>,
        number: u64,
        call: M::Call,
    ) -> Result<Placed<M::Reply>, AllocError>
        requires turn { (token.old.table_id ≡ self.now.table.shared.table_id)
            × Holding M.legal M.setup M.history token.old.me }
        requires number { number ≡ token.old.me.0.mine.number }
        ensures same { token.new.table_id ≡ token.old.table_id }
        ensures served { Served M.legal M.history token.old.me call result token.new.me }
        ensures fits { IfOk result (λ p. p.place + 1 < 2 ^ 64) }
    {
        let shared = &self.table.shared;
        let Some(mut machine) = shared.exchange(token, MACHINE, None) else {
            unreachable!()
        };
        let place = machine.places();
        let answer = machine.step(number, call);
        let places = machine.places();
        match shared.exchange(token, MACHINE, Some(machine)) {
            None => {}
            Some(_) => unreachable!(),
        }
        let reply = match answer {
            Ok(reply) => reply,
            Err(refused) => {
                self.free(token);
                return Err(refused);
            }
        };
        shared.store::<Commit>(token, PLACES, places);
        self.free(token);
        Ok(Placed { place, reply })
    }

    // Waits until it has taken the lock.
    fn wait_turn<R: Wait>(&self, rt: &R, token: &mut Token<M>)
        requires { (token.old.table_id ≡ self.now.table.shared.table_id) × IsIdle token.old.me }
        ensures same { token.new.table_id ≡ token.old.table_id }
        ensures taken { (n : ℕ) × Waited M.legal M.setup M.history n token.old.me token.new.me }
    {
        for _ in rt.forever() {
            if self.take(token) {
                return;
            }
            self.sleepers.fetch_add(1, Ordering::SeqCst);
            self.table.shared.park(rt, LOCK, 1);
            self.sleepers.fetch_sub(1, Ordering::SeqCst);
        }
        unreachable!()
    }

    /// Answers a call if no other seat has the turn, and never waits. The call is then one entry of the history, at
    /// the returned place. Returns `Busy` exactly if the one compare-exchange of this call found the lock taken, and
    /// hands the call back. Returns `Memory` if the machine ran out of memory: the call is dropped, and there is no
    /// entry.
    pub fn try_step(
        &self,
        seat: &mut Seat<M>,
        call: M::Call,
    ) -> Result<Placed<M::Reply>, TryRefused<M::Call>>
        requires { IsOf self.now seat.old }
        ensures same { IsOf self.now seat.new }
        ensures answer { TryAnswers M.legal (view seat.old) call result (view seat.new) }
    {
        if !self.take(&mut seat.token) {
            return Err(TryRefused::Busy(call));
        }
        let number = seat.number;
        let Ok(placed) = self.serve(&mut seat.token, number, call) else {
            return Err(TryRefused::Memory);
        };
        seat.seen = placed.place + 1;
        Ok(placed)
    }

    /// The same, but tries again until it has the turn, and sleeps between tries.
    pub fn step<R: Wait>(
        &self,
        rt: &R,
        seat: &mut Seat<M>,
        call: M::Call,
    ) -> Result<Placed<M::Reply>, AllocError>
        requires { IsOf self.now seat.old }
        ensures same { IsOf self.now seat.new }
        ensures answer { Answers M.legal (view seat.old) call result (view seat.new) }
    {
        self.wait_turn(rt, &mut seat.token);
        let number = seat.number;
        let placed = self.serve(&mut seat.token, number, call)?;
        seat.seen = placed.place + 1;
        Ok(placed)
    }

    /// The length of the history, all of which the seat has then seen. Does not take the lock.
    pub fn look(&self, seat: &mut Seat<M>) -> u64
        requires { IsOf self.now seat.old }
        ensures same { IsOf self.now seat.new }
        ensures answer { LookAnswers M.legal (view seat.old) result (view seat.new) }
    {
        seat.seen = self.table.shared.load::<Look>(&mut seat.token, PLACES);
        seat.seen
    }

    /// Splits a new seat off seat 0. Its number is the next one, and it has seen what seat 0 has. Does not take the
    /// lock, and currently needs no memory.
    pub fn try_split(&self, seat: &mut Seat<M>) -> Result<Seat<M>, AllocError>
        requires seat { IsOf self.now seat.old }
        requires zero { (view seat.old).mine.number ≡ 0 }
        requires room { (view seat.old).mine.made < 4294967295 }
        ensures same { IsOf self.now seat.new }
        ensures answers { IsOk result }
        ensures new { IfOk result (λ s. IsOf self.now s × (view s ≡ next_seat (view seat.old))) }
        ensures rest { view seat.new ≡ split_off (view seat.old) }
    {
        let shared = &self.table.shared;
        shared.load::<Draw>(&mut seat.token, PLACES);
        let token = shared.split_seat::<HandOut>(&mut seat.token);
        seat.made += 1;
        Ok(Seat {
            token,
            number: seat.made,
            seen: seat.seen,
            made: 0,
        })
    }

    /// Joins another seat into this one, which has then seen what either had.
    pub fn join(&self, seat: &mut Seat<M>, other: Seat<M>)
        requires seat { IsOf self.now seat.old }
        requires other { IsOf self.now other }
        ensures same { IsOf self.now seat.new }
        ensures both { view seat.new ≡ together (view seat.old) (view other) }
    {
        let Seat { token, seen, .. } = other;
        self.table
            .shared
            .join_seat::<TakeIn>(&mut seat.token, token);
        seat.seen = seat.seen.max(seen);
    }
}

impl<M: Machine + Drop> Turnstile<M> {
    /// A turnstile over a machine that has answered no call, and its first seat, number 0. If memory runs out, the
    /// machine is dropped.
    pub fn new(alloc: Global, machine: M) -> Result<(Turnstile<M>, Seat<M>), AllocError>
        requires { M.history machine ≡ [] }
        ensures { IfOk result (λ r. IsOf r.0 r.1 × (view r.1 ≡ newcomer (Some (M.setup machine)) 0 0 [])) }
    {
        let about = Snapshot::of(&machine);
        let mut slots = Vec::with_capacity(alloc, 1)?;
        slots.push_reserved(Some(machine));
        let Ok((table, token)) = Table::new(alloc, &[0, 0], slots, &about) else {
            return Err(AllocError);
        };
        let seat = Seat {
            token,
            number: 0,
            seen: 0,
            made: 0,
        };
        let sleepers = AtomicU64::new(0);
        Ok((Turnstile { table, sleepers }, seat))
    }

    /// Waits for the turn, and returns the machine with its history.
    pub fn close<R: Wait>(self, rt: &R, seat: Seat<M>) -> M
        requires { IsOf self seat }
        ensures setup { (view seat).setup ≡ Some (M.setup result) }
        ensures history { Closes M.legal (view seat) (M.history result) }
    {
        let Seat { mut token, .. } = seat;
        self.wait_turn(rt, &mut token);
        let Some(machine) = self.table.shared.exchange(&mut token, MACHINE, None) else {
            unreachable!()
        };
        let Turnstile { table, .. } = self;
        let mut closed = table.close();
        drop(closed.take(MACHINE));
        closed.free();
        machine
    }
}
