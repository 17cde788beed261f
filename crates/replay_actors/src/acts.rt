//! What a step of a session asks of the dispatcher.
ghost use Rattle.std.specs.Prelude.{◌≡◌};
ghost use Rattle.dispatch_history.specs.Ordered.{is_scripted};
ghost use Rattle.replay_actors.specs.Session.{call_of};

use dispatch_calls::Call;
use input_types::Moment;
use session_plan::Act;

/// The call of a step, at its time.
pub fn call_of(now: Moment, act: Act) -> Call
    ensures value { result ≡ call_of now act }
    ensures valid { is_scripted result ≡ 1 }
{
    match act {
        Act::Windows(snapshot) => Call::Windows { now, snapshot },
        Act::FocusOn { display, channel } => Call::FocusOn {
            now,
            display,
            channel,
            keys: true,
        },
        Act::Pilfer { channel, device } => Call::Pilfer {
            now,
            channel,
            device,
        },
        Act::Remove { channel } => Call::Remove { now, channel },
    }
}
