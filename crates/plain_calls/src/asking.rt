//! What can be asked about clients.
ghost use Rattle.std.specs.Prelude.{◌≡◌};
ghost use Rattle.plain_calls.specs.Asking.{HasFocus, GetsKeys, Responds, Holds, IsClock};
ghost use Rattle.plain_calls.specs.Calling.{Reads, Replies, answer_status, written};
ghost use Rattle.plain_calls.specs.Clients.{client_of, plain_client};
ghost use Rattle.plain_calls.specs.Numbers.{device_of, display_of, flag};
ghost use Rattle.plain_calls.specs.Status.{status_ok};

use crate::client::{PlainClient, answer_client, plain_client};
use crate::numbers::{device_of, display_of, flag};
use crate::status::{OK, RANGE};
use live_input::Live;

/// The client that has the focus of a display. `NOTHING` if none has.
pub fn focused(live: &Live, display: u8, client: &mut PlainClient) -> u32
    ensures { Reads (display_of display) result (client.new ≡ client.old)
        (λ y. Replies answer_status result
        (λ r. HasFocus live.now y r × (client.new ≡ written plain_client r client.old))) }
{
    let Some(display) = display_of(display) else {
        return RANGE;
    };
    answer_client(live.focused(display), client)
}

/// The client that keys go to. `NOTHING` if there is none.
pub fn key_target(live: &Live, client: &mut PlainClient) -> u32
    ensures { Replies answer_status result
        (λ r. GetsKeys live.now r × (client.new ≡ written plain_client r client.old)) }
{
    answer_client(live.key_target(), client)
}

/// Whether a client is open and responds, as 1 or 0.
pub fn is_responsive(live: &Live, client: &PlainClient) -> u8
    ensures { Responds live.now (client_of client.now) result }
{
    flag(live.is_responsive(client.read()))
}

/// The ids of the pointers of a device that a client holds, as bits.
pub fn holds(live: &Live, client: &PlainClient, device: u8, ids: &mut u32) -> u32
    ensures { Reads (device_of device) result (ids.new ≡ ids.old)
        (λ d. (result ≡ status_ok) × Holds live.now (client_of client.now) d ids.new) }
{
    let Some(device) = device_of(device) else {
        return RANGE;
    };
    *ids = live.holds(client.read(), device).bits();
    OK
}

/// The clock: the latest time that was handed in, in microseconds.
pub fn clock(live: &Live) -> u64
    ensures { IsClock live.now result }
{
    live.clock().get()
}
