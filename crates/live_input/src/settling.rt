//! What is done next, as long as there is something.
ghost use Rattle.std.specs.Prelude.{◌≡◌, ◌≤◌, List, Some, None};
ghost use Rattle.dispatch_history.specs.Effect.{Effect};
ghost use Rattle.dispatcher.specs.Dispatching.{IsAfter};
ghost use Rattle.live_input.specs.Settling.{next_due, left_call, sooner, sooner_call, tick_by, repeat_by, timeout};

use dispatch_calls::Call;
use dispatcher::Dispatcher;
use input_types::Moment;

/// The next of everything that is due up to now: the first waiting args are dispatched; if none wait, the earlier of
/// the first timeout and the next repeat.
pub(crate) fn next_due(dispatcher: &Dispatcher, now: Moment) -> Option<Call>
    ensures { (es : List Effect) → IsAfter es dispatcher.now → result ≡ next_due now es }
{
    if dispatcher.is_waiting() {
        Some(Call::Pump { now })
    } else {
        sooner_call(now, timeout(dispatcher), dispatcher.repeat_due())
    }
}

/// When the first channel is due to be reported unresponsive.
pub(crate) fn timeout(dispatcher: &Dispatcher) -> Option<u64>
    ensures { (es : List Effect) → IsAfter es dispatcher.now → result ≡ timeout es }
{
    match dispatcher.first_due() {
        Some((moment, _)) => Some(moment),
        None => None,
    }
}

/// The earlier of two optional moments.
pub(crate) fn sooner(first: Option<u64>, second: Option<u64>) -> Option<u64>
    ensures { result ≡ sooner first second }
{
    match (first, second) {
        (Some(t), Some(u)) => Some(t.min(u)),
        (None, at) => at,
        (at, None) => at,
    }
}

/// The earlier of a timeout and a repeat, if that is not later than now; the timeout if both come at one time.
fn sooner_call(now: Moment, timeout: Option<u64>, repeat: Option<u64>) -> Option<Call>
    ensures { result ≡ sooner_call now timeout repeat }
{
    match (timeout, repeat) {
        (Some(t), Some(r)) => {
            if r < t {
                repeat_by(now, repeat)
            } else {
                tick_by(now, timeout)
            }
        }
        (None, _) => repeat_by(now, repeat),
        (_, None) => tick_by(now, timeout),
    }
}

/// A tick at the moment of a timeout, if that is not later than now.
fn tick_by(now: Moment, timeout: Option<u64>) -> Option<Call>
    ensures { result ≡ tick_by now timeout }
{
    match timeout {
        Some(t) => {
            if t <= now.get() {
                Some(Call::Tick {
                    now: moment_by(now, t),
                })
            } else {
                None
            }
        }
        None => None,
    }
}

/// A pump at the moment of a repeat, if that is not later than now.
fn repeat_by(now: Moment, repeat: Option<u64>) -> Option<Call>
    ensures { result ≡ repeat_by now repeat }
{
    match repeat {
        Some(t) => {
            if t <= now.get() {
                Some(Call::Pump {
                    now: moment_by(now, t),
                })
            } else {
                None
            }
        }
        None => None,
    }
}

/// The time with this many microseconds, which is not later than now.
fn moment_by(now: Moment, us: u64) -> Moment
    requires { us ≤ now }
    ensures { result ≡ us }
{
    // For the proof alone: the range of a moment is known only where it is read.
    let _latest = now.get();
    Moment::new(us).unwrap()
}

/// What is left to do on a channel, given how many messages it has, how many were received, and the number of the
/// oldest published and unfinished one.
pub(crate) fn left_call(
    now: Moment,
    channel: u32,
    received: u64,
    sent: u64,
    oldest: Option<u64>,
) -> Option<Call>
    ensures { result ≡ left_call now channel received sent oldest }
{
    match oldest {
        Some(seq) => {
            if seq <= received {
                Some(Call::Finish { now, channel, seq })
            } else if received < sent {
                Some(Call::Receive { channel })
            } else {
                None
            }
        }
        None => {
            if received < sent {
                Some(Call::Receive { channel })
            } else {
                None
            }
        }
    }
}
