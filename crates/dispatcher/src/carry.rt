//! How a step is carried out.
ghost use Rattle.std.specs.Prelude.{◌≡◌, ℕ, suc, false, [], ◌∷◌, OnOk, OnErr, IsOk};
ghost use Rattle.route_split.specs.declared.mark.Mark.TheVariants.{NoOp};
ghost use Rattle.route_split.specs.Marking.{IsWhole};
ghost use Rattle.dispatcher.specs.DispatchRound.Rounds.{AreListeners, IsReady, IsTimely, is_concerned};
ghost use Rattle.dispatcher.specs.DispatchRound.Steady.{IsSteady};
ghost use Rattle.dispatcher.specs.Carrying.{IsSilent, CarriesOut, CarriesFrom, CarriesSome};
ghost use Rattle.dispatcher.specs.Covering.{CoversGo};
ghost use Rattle.dispatcher.specs.Keying.{target_number};
ghost use Rattle.dispatcher.specs.Roomy.{IsRoomy, AreModest, TakesRoom};
ghost use Rattle.dispatcher.specs.Tables.{SameButRoom};

use crate::dispatch_round::{Round, make_room, make_steady_room, send_all, send_steady};
use crate::key_tables::remember;
use crate::tables::Routing;
use crate::window_covers::Covers;
use focus_resolver::Change;
use input_types::{KeyMsg, Moment};
use route_split::{Mark, Touches};
use std::alloc::AllocError;

/// Records what lies over the windows that a round gives a pointer, before the round changes the tables of touches.
#[inline(always)]
fn give(covers: &mut Covers, round: &Round, touches: &Touches)
    ensures { CoversGo round.now.gift touches.now covers.old covers.new }
{
    match round.gift {
        Some(gift) => covers.give(&gift, touches.holders(gift.device)),
        None => {}
    }
}

/// Carries out a round that sends to the windows of the mask `outgoing`, for which there is room. Takes no memory.
pub(crate) fn carry_out(
    routing: &mut Routing,
    outgoing: u64,
    round: &Round,
    place: u64,
    clock: Moment,
)
    requires whole { IsWhole round.now.mark }
    requires outgoing { AreListeners outgoing routing.old.touches round.now routing.old.channels }
    requires ready { IsReady routing.old.touches round.now routing.old.channels }
    requires timely { IsTimely clock routing.old.channels }
    ensures carries { CarriesOut round.now place clock routing.old routing.new }
    ensures room { TakesRoom outgoing round.now routing.old.channels routing.new.channels }
    ensures list { routing.new.cancelled ≡ routing.old.cancelled }
{
    give(&mut routing.covers, round, &routing.touches);
    send_all(
        outgoing,
        round,
        &mut routing.touches,
        &routing.covers,
        &mut routing.channels,
        routing.shown.origins(),
        place,
        clock,
    );
    remember(&mut routing.repeat, round.target, round.keys, clock);
}

/// Makes room for a round and carries it out. If memory runs out, only the room of channels changes.
pub(crate) fn send(
    routing: &mut Routing,
    round: &Round,
    place: u64,
    clock: Moment,
) -> Result<(), AllocError>
    requires whole { IsWhole round.now.mark }
    requires timely { IsTimely clock routing.old.channels }
    ensures ok { OnOk result (CarriesFrom round.now place clock routing.old routing.new) }
    ensures err { OnErr result (SameButRoom routing.old routing.new) }
    ensures calm { ((w : ℕ) → is_concerned routing.old.touches round.now w ≡ false) → IsOk result }
    ensures roomy { (n list : ℕ) → IsRoomy (suc n) list routing.old.channels
        → AreModest round.now.target round.now.keys.now routing.old.channels
        → IsOk result × IsRoomy n list routing.new.channels }
    ensures list { routing.new.cancelled ≡ routing.old.cancelled }
{
    let outgoing = make_room(round, &routing.touches, &mut routing.channels)?;
    carry_out(routing, outgoing, round, place, clock);
    Ok(())
}

/// Does the same for a steady round, which gives and takes no pointer. If memory runs out, only the room of channels
/// changes. It is inlined, so that only the parts that the round has are looked at.
#[inline(always)]
pub(crate) fn send_steadily(
    routing: &mut Routing,
    round: &Round,
    place: u64,
    clock: Moment,
) -> Result<(), AllocError>
    requires steady { IsSteady round.now }
    requires timely { IsTimely clock routing.old.channels }
    ensures ok { OnOk result (CarriesFrom round.now place clock routing.old routing.new) }
    ensures err { OnErr result (SameButRoom routing.old routing.new) }
    ensures roomy { (n list : ℕ) → IsRoomy (suc n) list routing.old.channels
        → AreModest round.now.target round.now.keys.now routing.old.channels
        → IsOk result × IsRoomy n list routing.new.channels }
    ensures list { routing.new.cancelled ≡ routing.old.cancelled }
{
    let outgoing = make_steady_room(round, &routing.touches, &mut routing.channels)?;
    give(&mut routing.covers, round, &routing.touches);
    send_steady(
        outgoing,
        round,
        &mut routing.touches,
        &routing.covers,
        &mut routing.channels,
        routing.shown.origins(),
        place,
        clock,
    );
    remember(&mut routing.repeat, round.target, round.keys, clock);
    Ok(())
}

/// Sends the key target one key message.
pub(crate) fn send_key(
    routing: &mut Routing,
    message: KeyMsg,
    place: u64,
    clock: Moment,
) -> Result<(), AllocError>
    requires timely { IsTimely clock routing.old.channels }
    ensures ok { OnOk result (CarriesSome NoOp (message ∷ []) 0 0 place clock routing.old routing.new) }
    ensures err { OnErr result (SameButRoom routing.old routing.new) }
    ensures roomy { (n list : ℕ) → IsRoomy (suc n) list routing.old.channels
        → AreModest (target_number routing.old.focus) (message ∷ []) routing.old.channels
        → IsOk result × IsRoomy n list routing.new.channels }
    ensures list { routing.new.cancelled ≡ routing.old.cancelled }
{
    let round = Round {
        mark: Mark::NoOp,
        motion: None,
        gift: None,
        watchers: 0,
        target: routing.focus.target().unwrap_or(0),
        keys: &[message],
        lost: 0,
        gained: 0,
    };
    send_steadily(routing, &round, place, clock)
}

/// Sends the key target keys, and windows the changes of the focus, while pointers change hands by a mark.
pub(crate) fn send_still(
    routing: &mut Routing,
    mark: Mark,
    keys: &[KeyMsg],
    change: &Change,
    place: u64,
    clock: Moment,
) -> Result<(), AllocError>
    requires whole { IsWhole mark }
    requires timely { IsTimely clock routing.old.channels }
    ensures ok { OnOk result
        (CarriesSome mark keys.now change.now.lost change.now.gained place clock routing.old routing.new) }
    ensures err { OnErr result (SameButRoom routing.old routing.new) }
    ensures calm { IsSilent mark keys.now change.now → IsOk result }
    ensures roomy { (n list : ℕ) → IsRoomy (suc n) list routing.old.channels
        → AreModest (target_number routing.old.focus) keys.now routing.old.channels
        → IsOk result × IsRoomy n list routing.new.channels }
    ensures list { routing.new.cancelled ≡ routing.old.cancelled }
{
    let round = Round {
        mark,
        motion: None,
        gift: None,
        watchers: 0,
        target: routing.focus.target().unwrap_or(0),
        keys,
        lost: change.lost,
        gained: change.gained,
    };
    send(routing, &round, place, clock)
}

/// A change that leaves the focus as it is.
pub(crate) fn no_change(routing: &Routing) -> Change
    ensures { (result.lost ≡ 0) × (result.gained ≡ 0) }
{
    Change {
        lost: 0,
        gained: 0,
        target: routing.focus.target(),
    }
}
