//! The next message of any client of a live service.
ghost use Rattle.std.specs.Prelude.{◌≡◌};
ghost use Rattle.plain_calls.specs.Calling.{Replies, written};
ghost use Rattle.plain_calls.specs.NextAny.{ReceivedAny, any_status, handed_in, plain_last, plain_owner, plain_told};
ghost use Rattle.inputflinger_c.specs.Serving.{OnService};

use crate::service::Service;
use plain_calls::status::FREE;
use plain_calls::{PlainClient, PlainMessage, next_any};
use std::alloc::Global;

/// Receives the next message of any client; see `next_any::next_any`. `FREE` if the handle is free.
#[unsafe(no_mangle)]
pub extern "C" fn inputflinger_proved_live_next_any(
    alloc: Global,
    live: &mut Service,
    client: &mut PlainClient,
    message: &mut PlainMessage,
    last: &mut u8,
) -> u32
    ensures { OnService live.old.cell.state result live.new.cell.state
        ((client.new ≡ client.old) × (message.new ≡ message.old) × (last.new ≡ last.old))
        (λ old new. Replies any_status result (λ r. ReceivedAny old new r
        × (client.new ≡ written plain_owner (handed_in r) client.old)
        × (message.new ≡ written (plain_told new.live.seats) (handed_in r) message.old)
        × (last.new ≡ written plain_last (handed_in r) last.old))) }
{
    let Some(mut service) = live.take(alloc) else {
        return FREE;
    };
    let status = next_any::next_any(&mut service, client, message, last);
    live.put(service);
    status
}
