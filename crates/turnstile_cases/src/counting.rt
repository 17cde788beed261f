//! Machines that count: calls of one thread, calls beside a step that is held open, and calls of two threads at once.
ghost use Rattle.std.specs.Prelude.{◌≡◌, ◌+◌, ◌<◌, ◌≤◌, IfOk};
ghost use Rattle.turnstile.specs.Seats.{IsOf, view};
ghost use Rattle.turnstile_cases.specs.Counting.{SameNumbers};

use crate::counter::Counter;
use crate::flags::Flags;
use crate::held_counter::HeldCounter;
use std::alloc::{AllocError, Global};
use std::io;
use std::sync::Wait;
use std::thread::{Threads, join_mut};
use turnstile::{Machine, Seat, TryRefused, Turnstile};

/// How many calls each of two threads makes.
const CALLS: u64 = 100_000;

/// Tries a call, and prints what it answered.
fn try_call<M: Machine<Setup = u64, Call = u64, Reply = u64>, R: Print>(
    rt: &R,
    turnstile: &Turnstile<M>,
    seat: &mut Seat<M>,
    amount: u64,
) -> io::Result<()>
    requires { IsOf turnstile.now seat.old }
    ensures of { IsOf turnstile.now seat.new }
    ensures numbers { SameNumbers (view seat.old) (view seat.new) }
{
    let answer = turnstile.try_step(seat, amount);
    let seat = seat.number();
    match answer {
        Ok(placed) => println!(rt;
            "seat {seat}: place {}, total {}",
            placed.place, placed.reply
        ),
        Err(TryRefused::Busy(call)) => println!(rt; "seat {seat}: busy, call {call} handed back"),
        Err(TryRefused::Memory) => println!(rt; "seat {seat}: no memory"),
    }
}

/// Splits off a seat, and prints what it is.
fn try_split<M: Machine, R: Print>(
    rt: &R,
    turnstile: &Turnstile<M>,
    zero: &mut Seat<M>,
) -> io::Result<Seat<M>>
    requires of { IsOf turnstile.now zero.old }
    requires zero { (view zero.old).mine.number ≡ 0 }
    requires room { (view zero.old).mine.made < 9 }
    ensures of { IsOf turnstile.now zero.new }
    ensures zero { (view zero.new).mine.number ≡ 0 }
    ensures made { (view zero.new).mine.made ≤ (view zero.old).mine.made + 1 }
    ensures new { IfOk result (λ s. IsOf turnstile.now s) }
{
    let seat = turnstile.try_split(zero)?;
    println!(rt;
        "split off: seat {}, which has seen {}",
        seat.number(),
        seat.seen()
    )?;
    Ok(seat)
}

/// Two calls of seat 0, and one of a seat that is split off then.
fn one_history<R: Wait + Print>(rt: &R, alloc: Global) -> io::Result<()> {
    let (turnstile, mut zero) = Turnstile::new(alloc, Counter::new(alloc, 0))?;
    try_call(rt, &turnstile, &mut zero, 5)?;
    try_call(rt, &turnstile, &mut zero, 2)?;
    let mut one = try_split(rt, &turnstile, &mut zero)?;
    try_call(rt, &turnstile, &mut one, 1)?;
    println!(rt; "length {}", turnstile.look(&mut zero))?;
    turnstile.join(&mut zero, one);
    let counter = turnstile.close(rt, zero);
    for (seat, amount, total) in counter.entries() {
        println!(rt; "entry: seat {seat}, amount {amount}, total {total}")?;
    }
    Ok(())
}

/// What the others do while a step is held open, which is then released.
fn beside<M: Machine<Setup = u64, Call = u64, Reply = u64>, R: Print>(
    rt: &R,
    flags: &Flags,
    turnstile: &Turnstile<M>,
    zero: &mut Seat<M>,
    two: &mut Seat<M>,
) -> io::Result<()>
    requires zero { IsOf turnstile.now zero.old × ((view zero.old).mine.number ≡ 0) × ((view zero.old).mine.made < 9) }
    requires two { IsOf turnstile.now two.old }
    ensures two { IsOf turnstile.now two.new }
{
    println!(rt; "a step is held open: {}", flags.wait_inside())?;
    try_call(rt, turnstile, two, 7)?;
    try_split(rt, turnstile, zero)?;
    println!(rt; "length {}", turnstile.look(zero))?;
    flags.release();
    Ok(())
}

/// A step of seat 1 is held open, and the others do not wait for it.
fn held_open<R: Threads + Wait + Print + Sync>(rt: &R, alloc: Global) -> io::Result<()> {
    let flags = Flags::new();
    let held = HeldCounter::new(Counter::new(alloc, 0), &flags);
    let (turnstile, mut zero) = Turnstile::new(alloc, held)?;
    let mut one = try_split(rt, &turnstile, &mut zero)?;
    let mut two = try_split(rt, &turnstile, &mut zero)?;
    let (first, outgoing) = join_mut(
        rt,
        &mut || turnstile.step(rt, &mut one, 5),
        &mut || beside(rt, &flags, &turnstile, &mut zero, &mut two),
    );
    outgoing?;
    let first = first?;
    println!(rt; "seat 1: place {}, total {}", first.place, first.reply)?;
    try_call(rt, &turnstile, &mut two, 7)
}

/// Makes calls of 1, and waits for the turn at each.
fn make_calls<R: Wait>(
    rt: &R,
    turnstile: &Turnstile<Counter>,
    seat: &mut Seat<Counter>,
) -> Result<(), AllocError>
    requires { IsOf turnstile.now seat.old }
    ensures { IsOf turnstile.now seat.new }
{
    for _ in 0..CALLS {
        turnstile.step(rt, seat, 1)?;
    }
    Ok(())
}

/// Two threads make calls at once. Each call is one entry, and each seat has its own.
fn at_once<R: Threads + Wait + Print + Sync>(rt: &R, alloc: Global) -> io::Result<()> {
    let (turnstile, mut zero) = Turnstile::new(alloc, Counter::new(alloc, 0))?;
    let mut one = try_split(rt, &turnstile, &mut zero)?;
    let (by_zero, by_one) = join_mut(
        rt,
        &mut || make_calls(rt, &turnstile, &mut zero),
        &mut || make_calls(rt, &turnstile, &mut one),
    );
    by_zero?;
    by_one?;
    turnstile.join(&mut zero, one);
    let counter = turnstile.close(rt, zero);
    let entries = counter.entries();
    let of_zero = entries.iter().filter(|e| e.0 == 0).count();
    let total = entries.last().map_or(0, |e| e.2);
    println!(rt;
        "entries {}, of seat 0 {of_zero}, total {total}",
        entries.len()
    )
}

/// All of it.
pub(crate) fn print_all<R: Threads + Wait + Print + Sync>(rt: &R, alloc: Global) -> io::Result<()> {
    one_history(rt, alloc)?;
    held_open(rt, alloc)?;
    at_once(rt, alloc)
}
