//! What a race prints: the order of its calls, and then what each channel was sent.
//!
//! The caller opened channel 1. A script on lane 1 showed a window for it, the reader handed in one args, and the owner
//! of the channel received its message:
//!
//! ```text
//! order 4
//! s 1
//! r
//! p
//! g 1
//! channel 1 main
//! 1 1000 motion 1 DOWN 0@540,1200
//! end 1 sent 1 received 1 finished 0
//! ```
ghost use Rattle.std.specs.Prelude.{◌≡◌, ◌≤◌, ◌++◌, List, ℕ, length, OnOk, OnErr};
ghost use Rattle.replay_actors.specs.Texts.{names_of, race_output, ReadsAgain};
ghost use Rattle.stream_text.specs.OrderHistory.{order_of_history};

use crate::order::order_of;
use crate::part::RaceEnd;
use crate::streams::add_streams;
use dispatch_core::Core;
use session_plan::ChannelPlan;
use std::alloc::AllocError;
use stream_text::order_text;

/// Appends the order text and then the streams text. Without memory a part of them may be appended.
fn add_all(
    channels: &[ChannelPlan],
    core: &Core,
    seats: &[u64],
    out: &mut Vec<u8>,
) -> Result<(), AllocError>
    requires seats { length seats.now ≤ 8 }
    requires channels { length channels.now ≤ 64 }
    ensures ok { OnOk result (out.new.items ≡ out.old.items ++ race_output (names_of channels.now) seats.now core.now) }
    ensures err { OnErr result ((more : List ℕ) × (out.new.items ≡ out.old.items ++ more)) }
    ensures again { OnOk result (ReadsAgain (order_of_history seats.now core.now.entries)) }
{
    let order = order_of(*out.allocator(), core.history(), seats)?;
    order_text(&order, out)?;
    add_streams(core, channels, out)
}

/// Appends what is printed of the end of a race: the order of the calls of its core, and then what each of these
/// channels was sent. There are at most 64 channels, those that were opened, and at most 8 scripts. Out of memory
/// leaves `out` as it was.
pub fn race_text(
    channels: &[ChannelPlan],
    end: &RaceEnd,
    out: &mut Vec<u8>,
) -> Result<(), AllocError>
    requires seats { length end.now.script_seats.items ≤ 8 }
    requires channels { length channels.now ≤ 64 }
    ensures ok { OnOk result
        (out.new.items
        ≡ out.old.items ++ race_output (names_of channels.now) end.now.script_seats.items end.now.core) }
    ensures err { OnErr result (out.new.items ≡ out.old.items) }

    // Who reads the text as an order reads the order of the calls, whatever follows.
    ensures again { OnOk result
        (ReadsAgain (order_of_history end.now.script_seats.items end.now.core.entries)) }
{
    let length = out.len();
    match add_all(channels, &end.core, &end.script_seats, out) {
        Ok(()) => Ok(()),
        Err(error) => {
            out.truncate(length);
            Err(error)
        }
    }
}
