//! The calls of owners of channels.
ghost use Rattle.std.specs.Prelude.{◌≡◌, ℕ, None, not, if◌then◌else◌};
ghost use Rattle.focus_resolver.specs.Resolver.{is_at};
ghost use Rattle.dispatch_calls.specs.declared.call.Call.{Call};
ghost use Rattle.dispatch_calls.specs.declared.reply.Reply.TheVariants.{Gone};
ghost use Rattle.window_snapshot.specs.Mask.{mask_has};
ghost use Rattle.dispatcher.specs.InputChannel.State.{next_of};
ghost use Rattle.dispatch_history.specs.Reply.{got_reply};
ghost use Rattle.dispatcher.specs.DispatchChannels.Table.{channel_of};
ghost use Rattle.dispatcher.specs.DispatchRound.Rounds.{IsTimely};
ghost use Rattle.dispatcher.specs.Outcomes.{reply_of};
ghost use Rattle.dispatcher.specs.Tables.{Goes, HandsOn};

use crate::key_tables::focusable;
use crate::outcome::Outcome;
use crate::tables::Routing;
use dispatch_calls::Reply;
use input_types::Moment;
use key_repeat::Repeat;
use route_split::Mark;
use window_snapshot::mask_has;

/// The reply to the owner of a channel that receives its next message, which was not released.
pub(crate) fn next_reply(routing: &Routing, channel: u32) -> Reply
    ensures { result ≡ (if not (mask_has routing.now.channels.live channel) then Gone
        else got_reply (next_of (channel_of routing.now.channels channel))) }
{
    if !mask_has(routing.channels.live(), channel) {
        return Reply::Gone;
    }
    match routing.channels.next(channel) {
        Some(next) => Reply::Got(*next),
        None => Reply::Empty,
    }
}

/// Receives the next message of a channel, if there is one. The message is not copied.
pub(crate) fn receive(routing: &mut Routing, channel: u32)
    ensures { HandsOn channel routing.old routing.new }
{
    if !mask_has(routing.channels.live(), channel) {
        return;
    }
    routing.channels.receive_uncopied(channel);
}

/// The owner of a channel finishes a message.
pub(crate) fn finish(routing: &mut Routing, channel: u32, seq: u64, clock: Moment) -> Outcome
    requires { IsTimely clock routing.old.channels }
    ensures { (place : ℕ)
        → Goes (λ now. Call.Finish now channel seq) (reply_of result) place clock routing.old routing.new }
{
    if !mask_has(routing.channels.live(), channel) {
        return Outcome::Gone;
    }
    match routing.channels.finish(channel, seq, clock) {
        Ok(()) => Outcome::Done,
        Err(_) => Outcome::UnknownSeq,
    }
}

/// Closes a channel for good. Nobody is sent anything: the window is no longer live, and no other one loses or gains
/// anything.
pub(crate) fn remove(routing: &mut Routing, channel: u32, place: u64) -> Outcome
    ensures { (clock : ℕ)
        → Goes (λ now. Call.Remove now channel) (reply_of result) place clock routing.old routing.new }
{
    if !mask_has(routing.channels.live(), channel) {
        return Outcome::Gone;
    }
    let target = routing.focus.target();
    routing.channels.remove(channel);
    let _not_sent = routing
        .touches
        .change(&Mark::Forget { window: channel }, place);
    let windows = focusable(routing.shown.windows(), routing.channels.live());
    let _change = routing.focus.windows(windows);
    forget_key(&mut routing.repeat, target, channel);
    Outcome::Done
}

/// Stops the repeats if the channel is the key target.
fn forget_key(repeat: &mut Repeat, target: Option<u32>, channel: u32)
    ensures { repeat.new ≡ (if is_at target channel then None else repeat.old) }
{
    if let Some(target) = target {
        if channel == target {
            repeat.stop();
        }
    }
}
