//! A dispatcher that threads share: a service with two seats, one after the other and at once.
ghost use Rattle.std.specs.Prelude.{◌≡◌};
ghost use Rattle.turnstile.specs.Seats.{view};
ghost use Rattle.input_service.specs.Services.{IsOf};

use dispatch_calls::{Call, Reply, Terms};
use dispatch_core::Core;
use input_service::{Seat, Service};
use input_types::{Displays, Limit, Moment};
use key_repeat::Repeats;
use std::alloc::Global;
use std::io;
use std::io::ErrorKind;
use std::sync::Wait;
use std::thread::{Threads, join_mut};
use turnstile::Placed;

/// A new channel, with five seconds for each message and Android's repeats.
fn open() -> io::Result<Call> {
    let Some(limit) = Limit::new(5_000_000) else {
        return Err(ErrorKind::InvalidInput.into());
    };
    let repeats = Some(Repeats::android());
    Ok(Call::Open {
        terms: Terms { limit, repeats },
    })
}

/// The name of a call.
fn name_of(call: &Call) -> &'static str {
    match call {
        Call::Open { .. } => "Open",
        Call::Tick { .. } => "Tick",
        _ => "another call",
    }
}

/// Tries a call of a service that must be answered, and prints the answer.
fn try_call<R: Print>(rt: &R, service: &Service, seat: &mut Seat, call: Call) -> io::Result<()>
    requires { IsOf service.now seat.old }
    ensures of { IsOf service.now seat.new }
    ensures number { (view seat.new).mine.number ≡ (view seat.old).mine.number }
    ensures made { (view seat.new).mine.made ≡ (view seat.old).mine.made }
{
    let answer = service.try_call(seat, call);
    let Ok(placed) = answer else {
        return Err(ErrorKind::OutOfMemory.into());
    };
    println!(rt;
        "seat {}: place {}, {:?}",
        seat.number(),
        placed.place,
        placed.reply
    )
}

/// Two seats, one call each.
fn two_seats<R: Wait + Print>(rt: &R, alloc: Global) -> io::Result<()> {
    let core = Core::new(alloc, &Displays::new())?;
    let (service, mut zero) = Service::new(alloc, core)?;
    try_call(rt, &service, &mut zero, open()?)?;
    let mut one = service.try_split(&mut zero)?;
    let now = Moment::zero();
    try_call(rt, &service, &mut one, Call::Tick { now })?;
    println!(rt; "length {}", service.look(&mut zero))?;
    service.join(&mut zero, one);
    let core = service.close(rt, zero);
    for entry in core.history() {
        println!(rt; "entry: seat {}, {}", entry.seat, name_of(&entry.call))?;
    }
    Ok(())
}

/// Opens a channel, and waits for the turn.
fn call_open<R: Wait>(rt: &R, service: &Service, seat: &mut Seat) -> io::Result<Placed<Reply>>
    requires { IsOf service.now seat.old }
    ensures { IsOf service.now seat.new }
{
    let placed = service.call(rt, seat, open()?)?;
    Ok(placed)
}

/// Two seats make one call each at once. Both calls are answered, at places of their own.
fn at_once<R: Threads + Wait + Print + Sync>(rt: &R, alloc: Global) -> io::Result<()> {
    let core = Core::new(alloc, &Displays::new())?;
    let (service, mut zero) = Service::new(alloc, core)?;
    let mut one = service.try_split(&mut zero)?;
    let (by_zero, by_one) = join_mut(
        rt,
        &mut || call_open(rt, &service, &mut zero),
        &mut || call_open(rt, &service, &mut one),
    );
    let (first, second) = (by_zero?.place, by_one?.place);
    println!(rt; "places {} and {}", first.min(second), first.max(second))?;
    service.join(&mut zero, one);
    let core = service.close(rt, zero);
    for entry in core.history() {
        println!(rt; "entry: {} {:?}", name_of(&entry.call), entry.reply)?;
    }
    Ok(())
}

/// All of it.
pub(crate) fn print_all<R: Threads + Wait + Print + Sync>(rt: &R, alloc: Global) -> io::Result<()> {
    two_seats(rt, alloc)?;
    at_once(rt, alloc)
}
