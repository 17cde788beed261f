//! What clients of a live service receive and finish.
ghost use Rattle.std.specs.Prelude.{◌≡◌, ⊤};
ghost use Rattle.plain_calls.specs.Calling.{Reads, Replies, written};
ghost use Rattle.plain_calls.specs.Clients.{client_of};
ghost use Rattle.plain_calls.specs.Getting.{AreWaiting, Received, Finished, Pilfered};
ghost use Rattle.plain_calls.specs.Numbers.{device_of, moment_of};
ghost use Rattle.plain_calls.specs.Replies.{next_status, message_in, finish_status, pilfer_status};
ghost use Rattle.plain_calls.specs.Status.{status_ok};
ghost use Rattle.plain_calls.specs.Told.{told_to};
ghost use Rattle.inputflinger_c.specs.Serving.{OnService};

use crate::service::Service;
use plain_calls::status::{FREE, OK};
use plain_calls::{PlainClient, PlainMessage, messages};
use std::alloc::Global;

/// Receives the next message of a client; see `messages::next`. `FREE` if the handle is free.
#[unsafe(no_mangle)]
pub extern "C" fn inputflinger_proved_live_next(
    alloc: Global,
    live: &mut Service,
    client: &PlainClient,
    message: &mut PlainMessage,
) -> u32
    ensures { OnService live.old.cell.state result live.new.cell.state (message.new ≡ message.old)
        (λ old new. Replies next_status result (λ r. Received (client_of client.now) old new r
        × (message.new ≡ written (told_to old.live.seats (client_of client.now)) (message_in r) message.old))) }
{
    let Some(mut service) = live.take(alloc) else {
        return FREE;
    };
    let status = messages::next(&mut service, client, message);
    live.put(service);
    status
}

/// Finishes a message of a client; see `messages::finish`. `FREE` if the handle is free.
#[unsafe(no_mangle)]
pub extern "C" fn inputflinger_proved_live_finish(
    alloc: Global,
    live: &mut Service,
    now_us: u64,
    client: &PlainClient,
    seq: u64,
) -> u32
    ensures { OnService live.old.cell.state result live.new.cell.state ⊤
        (λ old new. Reads (moment_of now_us) result (new ≡ old)
        (λ now. Replies finish_status result (Finished now (client_of client.now) seq old new))) }
{
    let Some(mut service) = live.take(alloc) else {
        return FREE;
    };
    let status = messages::finish(&mut service, now_us, client, seq);
    live.put(service);
    status
}

/// A spy takes the pointers of a device; see `messages::pilfer`. `FREE` if the handle is free.
#[unsafe(no_mangle)]
pub extern "C" fn inputflinger_proved_live_pilfer(
    alloc: Global,
    live: &mut Service,
    now_us: u64,
    client: &PlainClient,
    device: u8,
) -> u32
    ensures { OnService live.old.cell.state result live.new.cell.state ⊤
        (λ old new. Reads (moment_of now_us) result (new ≡ old)
        (λ now. Reads (device_of device) result (new ≡ old)
        (λ d. Replies pilfer_status result (Pilfered now (client_of client.now) d old new)))) }
{
    let Some(mut service) = live.take(alloc) else {
        return FREE;
    };
    let status = messages::pilfer(&mut service, now_us, client, device);
    live.put(service);
    status
}

/// The mask of the channels with a message for their client. `FREE` if the handle is free.
#[unsafe(no_mangle)]
pub extern "C" fn inputflinger_proved_live_waiting(
    alloc: Global,
    live: &mut Service,
    mask: &mut u64,
) -> u32
    ensures { OnService live.old.cell.state result live.new.cell.state (mask.new ≡ mask.old)
        (λ old new. (result ≡ status_ok) × ((new ≡ old) × AreWaiting old.live mask.new)) }
{
    let Some(mut service) = live.take(alloc) else {
        return FREE;
    };
    *mask = messages::waiting(service.live());
    live.put(service);
    OK
}
