//! The limit of unreceived messages of a live service.
ghost use Rattle.std.specs.Prelude.{◌≡◌, ⊤};
ghost use Rattle.plain_calls.specs.Limited.{is_choked, with_most};
ghost use Rattle.plain_calls.specs.Clients.{client_of};
ghost use Rattle.plain_calls.specs.Numbers.{flag};
ghost use Rattle.plain_calls.specs.Status.{status_ok};
ghost use Rattle.inputflinger_c.specs.Serving.{OnService};

use crate::service::Service;
use plain_calls::status::{FREE, OK};
use plain_calls::{PlainClient, limited};
use std::alloc::Global;

/// Sets how many messages a client may leave unreceived. `FREE` if the handle is free.
#[unsafe(no_mangle)]
pub extern "C" fn inputflinger_proved_live_set_most(
    alloc: Global,
    live: &mut Service,
    most: u64,
) -> u32
    ensures { OnService live.old.cell.state result live.new.cell.state ⊤
        (λ old new. (result ≡ status_ok) × (new ≡ with_most most old)) }
{
    let Some(mut service) = live.take(alloc) else {
        return FREE;
    };
    limited::set_most(&mut service, most);
    live.put(service);
    OK
}

/// Whether a client is open and choked, as 1 or 0. `FREE` if the handle is free.
#[unsafe(no_mangle)]
pub extern "C" fn inputflinger_proved_live_is_choked(
    alloc: Global,
    live: &mut Service,
    client: &PlainClient,
    answer: &mut u8,
) -> u32
    ensures { OnService live.old.cell.state result live.new.cell.state (answer.new ≡ answer.old)
        (λ old new. (result ≡ status_ok) × ((new ≡ old)
        × (answer.new ≡ flag (is_choked old (client_of client.now))))) }
{
    let Some(mut service) = live.take(alloc) else {
        return FREE;
    };
    *answer = limited::is_choked(&service, client);
    live.put(service);
    OK
}
