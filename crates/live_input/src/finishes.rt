//! Clients that finish by themselves.
ghost use Rattle.std.specs.Prelude.{◌≡◌, ℕ, List};
ghost use Rattle.dispatch_history.specs.Effect.{Effect};
ghost use Rattle.dispatch_history.specs.Legal.{answered};
ghost use Rattle.dispatcher.specs.Access.{got};
ghost use Rattle.dispatcher.specs.Memory.{MayCount};
ghost use Rattle.live_input.specs.Receiving.{IsEasy, may_count, own_finish, with_call};
ghost use Rattle.live_input.specs.ReceivingLaws.{OwnFinishLaw, OtherFinishLaw};
ghost use Rattle.live_input.specs.Seats.{IsHeld};
ghost use Rattle.live_input.specs.Standing.{LiveIs};

use crate::live::Live;
use dispatch_calls::{Call, Reply};
use input_types::Moment;

impl Live {
    /// Finishes the message of a reply to a receive, at the clock, if the client finishes by itself and one more call
    /// can be counted.
    pub(crate) fn finish_received(&mut self, channel: u32, finishes: bool, reply: &Reply)
        ensures after { (ds : List ℕ) (es : List Effect) → LiveIs ds es self.old → IsHeld channel self.old.seats
            → LiveIs ds (with_call ds
            (own_finish finishes (may_count es) self.old.clock channel (got reply.now)) es) self.new }
        ensures rest { self.new ≡ record self.old { dispatcher = self.new.dispatcher; steps = self.new.steps } }
    {
        let counted = self.steps.made < u64::MAX;
        if let Some(call) = own_finish(finishes, counted, self.clock, channel, reply) {
            self.make_counted(&call);
        }
    }

    /// Makes a call that needs no memory and can be counted, so that it is answered.
    fn make_counted(&mut self, call: &Call)
        ensures after { (ds : List ℕ) (es : List Effect) → LiveIs ds es self.old → IsEasy self.old.seats call.now
            → MayCount es → LiveIs ds (answered ds call.now es) self.new }
        ensures rest { self.new ≡ record self.old { dispatcher = self.new.dispatcher; steps = self.new.steps } }
    {
        match self.make_calm(call) {
            Ok(()) => {}
            Err(_) => {}
        }
    }
}

/// The finish of the message of a reply, if the client finishes by itself and one more call can be counted.
fn own_finish(
    finishes: bool,
    counted: bool,
    now: Moment,
    channel: u32,
    reply: &Reply,
) -> Option<Call>
    ensures { result ≡ own_finish finishes counted now channel (got reply.now) }
{
    if !finishes || !counted {
        return None;
    }
    match reply {
        Reply::Got(message) => Some(Call::Finish {
            now,
            channel,
            seq: message.seq,
        }),
        _ => None,
    }
}

/// What a client that finishes by itself received is finished; another client only receives. The function does nothing.
pub fn laws()
    ensures own { OwnFinishLaw }
    ensures other { OtherFinishLaw }
{}
