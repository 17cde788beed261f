//! The streams text of a run.
ghost use Rattle.std.specs.Prelude.{◌≡◌, ◌++◌, ◌≤◌, List, length, map, IfOk, OnOk};
ghost use Rattle.dispatch_history.specs.Effect.{Effect, past_of};
ghost use Rattle.dispatch_history.specs.History.{opened};
ghost use Rattle.dispatch_history.specs.Plan.{Plan as PlanView};
ghost use Rattle.session_plan.specs.View.{channel_view};
ghost use Rattle.stream_text.specs.StreamsHistory.{sections_of, streams_text};
ghost use Rattle.schedule.specs.State.{Has};

use schedule::{Schedule, add_all_anrs};
use session_plan::ChannelPlan;
use std::alloc::{AllocError, Global};
use text_pieces::Pieces;

/// Takes the sections of all channels out of a run, and appends them.
fn add_sections(
    alloc: Global,
    schedule: &mut Schedule,
    channels: &[ChannelPlan],
    text: &mut Pieces,
) -> Result<(), AllocError>
    requires { length channels.now ≤ 64 }
    ensures { (plan : PlanView) (es : List Effect) → Has plan es schedule.old
        → opened (past_of es) ≡ length plan.channels → length channels.now ≡ length plan.channels
        → OnOk result (text.new ≡ text.old ++ sections_of 1 (map (λ c. c.name) (map channel_view channels.now)) es) }
{
    for (place, channel) in channels.iter().enumerate() {
        schedule.take_section(alloc, place as u32 + 1, channel.name.as_str(), text)?;
    }
    Ok(())
}

/// The streams text of a run, taken out of it.
pub(crate) fn text_of(
    alloc: Global,
    channels: &[ChannelPlan],
    schedule: &mut Schedule,
) -> Result<Pieces, AllocError>
    requires { length channels.now ≤ 64 }
    ensures { (plan : PlanView) (es : List Effect) → Has plan es schedule.old
        → opened (past_of es) ≡ length plan.channels → length channels.now ≡ length plan.channels
        → IfOk result (λ text. text ≡ streams_text (map (λ c. c.name) (map channel_view channels.now)) es) }
{
    let mut anrs = Vec::new(alloc);
    add_all_anrs(schedule.anrs(), &mut anrs)?;
    let mut text = Pieces::new(alloc);
    add_sections(alloc, schedule, channels, &mut text)?;
    text.push(anrs)?;
    Ok(text)
}
