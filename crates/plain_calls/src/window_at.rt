//! Whose window a touch goes to.
ghost use Rattle.std.specs.Prelude.{◌≡◌};
ghost use Rattle.plain_calls.specs.Calling.{Reads, Replies, answer_status, written};
ghost use Rattle.plain_calls.specs.Clients.{plain_client};
ghost use Rattle.plain_calls.specs.Numbers.{display_of};
ghost use Rattle.plain_calls.specs.WindowAt.{IsTouched};

use crate::client::{PlainClient, answer_client};
use crate::numbers::display_of;
use crate::status::RANGE;
use input_types::Pixel;
use live_input::Live;

/// The client whose window a touch at a pixel of a display goes to. `NOTHING` if there is no window, or a wall.
pub fn window_at(live: &Live, display: u8, x: i32, y: i32, client: &mut PlainClient) -> u32
    ensures { Reads (display_of display) result (client.new ≡ client.old)
        (λ d. Replies answer_status result
        (λ r. IsTouched live.now d (record { x = x; y = y }) r
        × (client.new ≡ written plain_client r client.old))) }
{
    let Some(display) = display_of(display) else {
        return RANGE;
    };
    answer_client(live.window_at(display, Pixel { x, y }), client)
}
