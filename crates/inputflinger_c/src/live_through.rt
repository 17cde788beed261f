//! Finishing every message of a client up to one.
ghost use Rattle.std.specs.Prelude.{◌≡◌, ⊤};
ghost use Rattle.plain_calls.specs.Calling.{Reads, Replies};
ghost use Rattle.plain_calls.specs.Clients.{client_of};
ghost use Rattle.plain_calls.specs.Numbers.{moment_of};
ghost use Rattle.plain_calls.specs.Replies.{finish_status};
ghost use Rattle.plain_calls.specs.Through.{FinishedThrough};
ghost use Rattle.inputflinger_c.specs.Serving.{OnService};

use crate::service::Service;
use plain_calls::status::FREE;
use plain_calls::{PlainClient, through};
use std::alloc::Global;

/// Finishes every message of a client up to one; see `through::finish_through`. `FREE` if the handle is free.
#[unsafe(no_mangle)]
pub extern "C" fn inputflinger_proved_live_finish_through(
    alloc: Global,
    live: &mut Service,
    now_us: u64,
    client: &PlainClient,
    seq: u64,
) -> u32
    ensures { OnService live.old.cell.state result live.new.cell.state ⊤
        (λ old new. Reads (moment_of now_us) result (new ≡ old)
        (λ now. Replies finish_status result (FinishedThrough now (client_of client.now) seq old new))) }
{
    let Some(mut service) = live.take(alloc) else {
        return FREE;
    };
    let status = through::finish_through(&mut service, now_us, client, seq);
    live.put(service);
    status
}
