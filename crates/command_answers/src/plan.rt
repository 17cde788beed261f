//! A session as the plan of a run.
ghost use Rattle.std.specs.Prelude.{◌≡◌, map, length, IfOk};
ghost use Rattle.std.specs.List.{All};
ghost use Rattle.session_plan.specs.Valid.{IsChannel, IsPlan};
ghost use Rattle.session_plan.specs.View.{channel_view, plan_view};
ghost use Rattle.schedule.specs.Planned.{IsStep, channel_of as run_channel, step_of as run_step};
ghost use Rattle.schedule.specs.Planned.{IsChannel as IsRunChannel};
ghost use Rattle.replay_actors.specs.Session.{channel_of, step_of};
ghost use Rattle.command_answers.specs.Plan.{IsPlanned};

use dispatch_calls::Terms;
use key_repeat::Repeats;
use replay_actors::call_of;
use schedule::{Channel, Plan, Step as RunStep};
use session_plan::{ChannelPlan, Plan as Session, Step};
use std::alloc::{AllocError, Global};

/// The plan of a session's run, with the names of its channels.
#[derive(Drop)]
pub(crate) struct Planned {
    pub(crate) channels: Vec<ChannelPlan>,
    pub(crate) plan: Plan,
}

/// What a channel of a session with these repeats is opened with.
fn terms_of(channel: &ChannelPlan, repeats: &Option<Repeats>) -> Terms
    ensures { result ≡ record { limit = channel.now.limit; repeats = repeats.now } }
{
    Terms {
        limit: channel.limit,
        repeats: *repeats,
    }
}

/// A channel without its name, opened with these terms.
fn run_channel(channel: &ChannelPlan, terms: Terms) -> Channel
    requires { IsChannel channel.now }
    ensures value { run_channel result ≡ record {
      terms = terms;
      finishes = channel.now.finishes;
      finish_after = channel.now.finish_after;
    } }
    ensures valid { IsRunChannel result }
{
    Channel {
        terms,
        finishes: channel.finishes,
        finish_after: channel.finish_after,
    }
}

/// The channels of a run of a session with these repeats.
fn run_channels(
    alloc: Global,
    channels: &[ChannelPlan],
    repeats: &Option<Repeats>,
) -> Result<Vec<Channel>, AllocError>
    requires { All IsChannel channels.now }
    ensures value { IfOk result
        (λ v. map run_channel v.items ≡ map (channel_of repeats.now) (map channel_view channels.now)) }
    ensures len { IfOk result (λ v. length v.items ≡ length channels.now) }
    ensures valid { IfOk result (λ v. All IsRunChannel v.items) }
{
    let mut all = Vec::new(alloc);
    for channel in channels {
        let terms = terms_of(channel, repeats);
        all.push(run_channel(channel, terms))?;
    }
    Ok(all)
}

/// A step with its call.
fn run_step(step: Step) -> RunStep
    ensures value { run_step result ≡ step_of step }
    ensures valid { IsStep result }
{
    RunStep {
        lane: step.lane,
        call: call_of(step.at, step.act),
    }
}

/// The steps of a run.
fn run_steps(alloc: Global, steps: Vec<Step>) -> Result<Vec<RunStep>, AllocError>
    ensures value { IfOk result (λ v. map run_step v.items ≡ map step_of steps.items) }
    ensures valid { IfOk result (λ v. All IsStep v.items) }
{
    let mut all = Vec::new(alloc);
    for step in steps {
        all.push(run_step(step))?;
    }
    Ok(all)
}

/// The plan of a session's run.
pub(crate) fn plan_run(alloc: Global, session: Session) -> Result<Planned, AllocError>
    requires { IsPlan session }
    ensures { IfOk result (IsPlanned (plan_view session)) }
{
    let plan = Plan {
        displays: session.device_displays(),
        channels: run_channels(alloc, &session.channels, &session.repeats)?,
        steps: run_steps(alloc, session.steps)?,
        until: session.end,
    };
    Ok(Planned {
        channels: session.channels,
        plan,
    })
}
