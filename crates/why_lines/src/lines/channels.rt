//! What happens to channels: pilfers, timeouts, removals, and requests of the focus.
ghost use Rattle.std.specs.Prelude.{◌≡◌, ◌++◌, codes, decimal, IfOk};
ghost use Rattle.window_snapshot.specs.Mask.{mask_has};
ghost use Rattle.why_text.specs.Lines.{pilfer_word, refusal_word, removed_word, request_word, responsive_word, taken_word, timeout_word};
ghost use Rattle.why_text.specs.Lost.{items_word};
ghost use Rattle.why_text.specs.Text.{line};
ghost use Rattle.why_lines.specs.Lost.{ids_in, items_of};
ghost use Rattle.why_lines.specs.Refusals.{answer_of};

use crate::lines::line::{add_clock, add_device};
use crate::lines::losing::{Lost, add_lost};
use crate::lines::sets::{add_channel, add_id_set, add_windows};
use bits32::Bits32;
use input_types::{DeviceId, DisplayId, Moment};
use std::alloc::AllocError;
use text_lines::{add_labeled, add_word};

/// Adds the front of the line of a pilfer.
fn add_pilfer(
    text: &mut Vec<u8>,
    clock: Moment,
    channel: u32,
    device: DeviceId,
) -> Result<(), AllocError>
    ensures { IfOk result (λ _. text.new.items
        ≡ text.old.items
        ++ (decimal clock ++ codes " "
        ++ (codes "pilfer " ++ decimal channel ++ codes " " ++ decimal device ++ codes " "))) }
{
    add_clock(text, clock)?;
    add_labeled(text, "pilfer ", u64::from(channel))?;
    add_device(text, " ", device)
}

/// Adds the line of a pilfer by a spy that holds these ids of a device. The mask has the windows that lose some of
/// them.
pub fn pilfer(
    text: &mut Vec<u8>,
    clock: Moment,
    channel: u32,
    device: DeviceId,
    ids: Bits32,
    losers: u64,
) -> Result<(), AllocError>
    ensures { IfOk result (λ _. text.new.items
        ≡ text.old.items
        ++ line clock (pilfer_word channel device (taken_word (ids_in ids) (mask_has losers)))) }
{
    add_pilfer(text, clock, channel, device)?;
    add_id_set(text, ids)?;
    add_word(text, " from ")?;
    add_windows(text, losers)?;
    add_word(text, "\n")
}

/// Why a pilfer is refused.
#[derive(Clone, Copy, Debug, PartialEq, Eq)]
pub enum PilferRefused {
    /// The channel is not live.
    Gone,
    /// Its window is no spy.
    NotSpy,
    /// It holds nothing of the device.
    NothingHeld,
}

/// The word of a refusal.
fn refusal_word(refused: PilferRefused) -> &'static str
    ensures { result.now ≡ refusal_word (answer_of refused) }
{
    match refused {
        PilferRefused::Gone => "Gone",
        PilferRefused::NotSpy => "NotSpy",
        PilferRefused::NothingHeld => "NothingHeld",
    }
}

/// Adds the line of a pilfer that is refused.
pub fn pilfer_refused(
    text: &mut Vec<u8>,
    clock: Moment,
    channel: u32,
    device: DeviceId,
    refused: PilferRefused,
) -> Result<(), AllocError>
    ensures { IfOk result (λ _. text.new.items
        ≡ text.old.items ++ line clock (pilfer_word channel device (refusal_word (answer_of refused)))) }
{
    add_pilfer(text, clock, channel, device)?;
    add_word(text, refusal_word(refused))?;
    add_word(text, "\n")
}

/// Adds the line of a window that is reported unresponsive, with the number of its oldest unfinished message.
pub fn timeout(
    text: &mut Vec<u8>,
    clock: Moment,
    channel: u32,
    seq: u64,
    lost: &Lost,
) -> Result<(), AllocError>
    ensures { IfOk result (λ _. text.new.items
        ≡ text.old.items
        ++ line clock
        (timeout_word channel (decimal seq) (items_word (items_of lost.now.ids.now lost.now.keys.now)))) }
{
    add_clock(text, clock)?;
    add_labeled(text, "timeout ", u64::from(channel))?;
    add_labeled(text, " ", seq)?;
    add_lost(text, lost)
}

/// Adds the line of a window that responds again.
pub fn responsive(text: &mut Vec<u8>, clock: Moment, channel: u32) -> Result<(), AllocError>
    ensures { IfOk result (λ _. text.new.items ≡ text.old.items ++ line clock (responsive_word channel)) }
{
    add_clock(text, clock)?;
    add_labeled(text, "responsive ", u64::from(channel))?;
    add_word(text, "\n")
}

/// Adds the line of a channel that is removed.
pub fn removed(
    text: &mut Vec<u8>,
    clock: Moment,
    channel: u32,
    lost: &Lost,
) -> Result<(), AllocError>
    ensures { IfOk result (λ _. text.new.items
        ≡ text.old.items
        ++ line clock (removed_word channel (items_word (items_of lost.now.ids.now lost.now.keys.now)))) }
{
    add_clock(text, clock)?;
    add_labeled(text, "removed ", u64::from(channel))?;
    add_lost(text, lost)
}

/// Adds the line of a removal of a channel that is not there.
pub fn removed_gone(text: &mut Vec<u8>, clock: Moment, channel: u32) -> Result<(), AllocError>
    ensures { IfOk result (λ _. text.new.items
        ≡ text.old.items ++ line clock (removed_word channel (codes "Gone"))) }
{
    add_clock(text, clock)?;
    add_labeled(text, "removed ", u64::from(channel))?;
    add_word(text, " Gone\n")
}

/// Adds the line of a request of the focus of a display.
pub fn request(
    text: &mut Vec<u8>,
    clock: Moment,
    display: DisplayId,
    channel: Option<u32>,
) -> Result<(), AllocError>
    ensures { IfOk result (λ _. text.new.items ≡ text.old.items ++ line clock (request_word display channel)) }
{
    add_clock(text, clock)?;
    add_labeled(text, "request ", u64::from(display.get()))?;
    add_word(text, " ")?;
    add_channel(text, channel)?;
    add_word(text, "\n")
}
