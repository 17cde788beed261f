//! Opening and closing clients of a live service, and who is on a channel.
ghost use Rattle.std.specs.Prelude.{◌≡◌, ⊤};
ghost use Rattle.plain_calls.specs.Calling.{Reads, Replies, ok_of, written};
ghost use Rattle.plain_calls.specs.Clients.{client_of, plain_client};
ghost use Rattle.plain_calls.specs.Coming.{Opened, Closed};
ghost use Rattle.plain_calls.specs.Numbers.{moment_of, flag};
ghost use Rattle.plain_calls.specs.Options.{AnswersUserData, options_of};
ghost use Rattle.plain_calls.specs.Replies.{open_status, close_status};
ghost use Rattle.inputflinger_c.specs.Serving.{OnService};
ghost use Rattle.live_input.specs.Seats.{is_open, user_data_of};
ghost use Rattle.plain_calls.specs.Asking.{client_on, AnswersClient};
ghost use Rattle.plain_calls.specs.Status.{status_ok};

use crate::service::Service;
use plain_calls::status::{FREE, OK};
use plain_calls::{PlainClient, PlainOptions, clients};
use std::alloc::Global;

/// Opens a client with options; see `clients::open`. `FREE` if the handle is free.
#[unsafe(no_mangle)]
pub extern "C" fn inputflinger_proved_live_open(
    alloc: Global,
    live: &mut Service,
    options: &PlainOptions,
    client: &mut PlainClient,
) -> u32
    ensures { OnService live.old.cell.state result live.new.cell.state (client.new ≡ client.old)
        (λ old new. Reads (options_of options.now) result ((new ≡ old) × (client.new ≡ client.old))
        (λ o. Replies open_status result (λ r. Opened o old new r
        × (client.new ≡ written plain_client (ok_of r) client.old)))) }
{
    let Some(mut service) = live.take(alloc) else {
        return FREE;
    };
    let status = clients::open(&mut service, options, client);
    live.put(service);
    status
}

/// Closes a client; see `clients::close`. `FREE` if the handle is free.
#[unsafe(no_mangle)]
pub extern "C" fn inputflinger_proved_live_close(
    alloc: Global,
    live: &mut Service,
    now_us: u64,
    client: &PlainClient,
) -> u32
    ensures { OnService live.old.cell.state result live.new.cell.state ⊤
        (λ old new. Reads (moment_of now_us) result (new ≡ old)
        (λ now. Replies close_status result (Closed now (client_of client.now) old new))) }
{
    let Some(mut service) = live.take(alloc) else {
        return FREE;
    };
    let status = clients::close(&mut service, now_us, client);
    live.put(service);
    status
}

/// Whether a client is open, as 1 or 0. `FREE` if the handle is free.
#[unsafe(no_mangle)]
pub extern "C" fn inputflinger_proved_live_is_open(
    alloc: Global,
    live: &mut Service,
    client: &PlainClient,
    answer: &mut u8,
) -> u32
    ensures { OnService live.old.cell.state result live.new.cell.state (answer.new ≡ answer.old)
        (λ old new. (result ≡ status_ok) × ((new ≡ old)
        × (answer.new ≡ flag (is_open old.live.seats (client_of client.now))))) }
{
    let Some(mut service) = live.take(alloc) else {
        return FREE;
    };
    *answer = clients::is_open(service.live(), client);
    live.put(service);
    OK
}

/// The client that is open on a channel; see `clients::client_at`. `FREE` if the handle is free.
#[unsafe(no_mangle)]
pub extern "C" fn inputflinger_proved_live_client_at(
    alloc: Global,
    live: &mut Service,
    channel: u32,
    client: &mut PlainClient,
) -> u32
    ensures { OnService live.old.cell.state result live.new.cell.state (client.new ≡ client.old)
        (λ old new. (new ≡ old) × AnswersClient result (client_on old.live channel) client.old client.new) }
{
    let Some(mut service) = live.take(alloc) else {
        return FREE;
    };
    let status = clients::client_at(service.live(), channel, client);
    live.put(service);
    status
}

/// The number that a client was opened with; see `clients::user_data`. `FREE` if the handle is free.
#[unsafe(no_mangle)]
pub extern "C" fn inputflinger_proved_live_user_data(
    alloc: Global,
    live: &mut Service,
    client: &PlainClient,
    user_data: &mut u64,
) -> u32
    ensures { OnService live.old.cell.state result live.new.cell.state (user_data.new ≡ user_data.old)
        (λ old new. (new ≡ old)
        × AnswersUserData result (user_data_of old.live.seats (client_of client.now)) user_data.old user_data.new) }
{
    let Some(mut service) = live.take(alloc) else {
        return FREE;
    };
    let status = clients::user_data(service.live(), client, user_data);
    live.put(service);
    status
}
