//! The channels of a race, which its caller opens before it begins.
ghost use Rattle.std.specs.Prelude.{◌≡◌, ◌<◌, ◌≤◌, [], OnErr, OnOk, length, map, reverse};
ghost use Rattle.turnstile.specs.Seats.{view};
ghost use Rattle.dispatch_history.specs.Given.{opens};
ghost use Rattle.session_plan.specs.View.{channel_view};
ghost use Rattle.input_service.specs.Services.{IsOf};
ghost use Rattle.replay_actors.specs.Lanes.{calls_made};
ghost use Rattle.replay_actors.specs.Raced.{OnlyOpens};
ghost use Rattle.replay_actors.specs.Opening.{IsCaller, OpensOne, OpensFront};
ghost use Rattle.replay_actors.specs.Session.{channel_of};

use dispatch_calls::{Call, Terms};
use input_service::{Seat, Service};
use key_repeat::Repeats;
use session_plan::ChannelPlan;
use std::alloc::AllocError;
use std::sync::Wait;

/// What a channel of a session is opened with, if keys are repeated so.
fn terms_of(channel: &ChannelPlan, repeats: &Option<Repeats>) -> Terms
    ensures { result ≡ record { limit = channel.now.limit; repeats = repeats.now } }
{
    Terms {
        limit: channel.limit,
        repeats: *repeats,
    }
}

/// Opens one channel more.
fn open_one<R: Wait>(
    rt: &R,
    service: &Service,
    seat: &mut Seat,
    terms: Terms,
) -> Result<(), AllocError>
    requires of { IsOf service.now seat.old }
    requires caller { IsCaller (view seat.old) }
    requires few { OnlyOpens (view seat.old).mine.own × (length (view seat.old).mine.own < 64) }
    ensures of { IsOf service.now seat.new }
    ensures caller { IsCaller (view seat.new) }
    ensures setup { (view seat.new).setup ≡ (view seat.old).setup }
    ensures opened { OnOk result (OpensOne terms (view seat.old) (view seat.new)) }
    ensures err { OnErr result ((view seat.new).mine.own ≡ (view seat.old).mine.own) }
{
    service.call(rt, seat, Call::Open { terms })?;
    Ok(())
}

/// Opens the channels of a race in their order, by the seat of number 0 before it is split. Keys are repeated so for
/// all of them. If memory runs out, only the first of them are opened.
#[tactic(auto, using(crate::proofs::Opened::opens_next))]
pub fn open_channels<R: Wait>(
    rt: &R,
    service: &Service,
    seat: &mut Seat,
    channels: &[ChannelPlan],
    repeats: Option<Repeats>,
) -> Result<(), AllocError>
    requires of { IsOf service.now seat.old }
    requires caller { IsCaller (view seat.old) }
    requires new { (view seat.old).mine.own ≡ [] }
    requires few { length channels.now ≤ 64 }
    ensures of { IsOf service.now seat.new }
    ensures caller { IsCaller (view seat.new) }
    ensures setup { (view seat.new).setup ≡ (view seat.old).setup }
    ensures opened { OnOk result (OnlyOpens (view seat.new).mine.own) }
    ensures each { OnOk result (length (view seat.new).mine.own ≡ length channels.now) }
    ensures calls { OnOk result (calls_made (view seat.new).mine.own
        ≡ reverse (opens (map (channel_of repeats) (map channel_view channels.now)))) }
    ensures err { OnErr result (OpensFront repeats channels.now (view seat.new)) }
{
    'channels: for channel in channels {
        open_one(rt, service, seat, terms_of(channel, &repeats))?;
    }
    Ok(())
}
