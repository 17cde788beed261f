//! Any call, matched by its kind.
ghost use Rattle.std.specs.Prelude.{◌≡◌, ◌≤◌, ◌+◌, true, IfOk, OnErr};
ghost use Rattle.dispatch_calls.specs.declared.call.Call.TheVariants.{Receive};
ghost use Rattle.dispatcher.specs.Answered.{Answers, AnswersCalm, AnswersPumped, AnswersReserved};
ghost use Rattle.dispatcher.specs.Queueing.{is_input};

use super::Dispatcher;
use crate::outcome::replied;
use crate::owners::next_reply;
use dispatch_calls::{Call, Reply};
use std::alloc::AllocError;

impl Dispatcher {
    /// Makes a call and answers it. If memory runs out, nothing changes, as if the call had not come.
    ///
    /// Some calls need no memory: owners that receive or finish, a removal, a request that changes no focus, a tick
    /// that reports no ANR and a pump that is idle.
    pub fn apply(&mut self, call: &Call) -> Result<Reply, AllocError>
        ensures ok { IfOk result (λ answer. Answers call.now answer self.old self.new) }
        ensures err { OnErr result (self.new ≡ self.old) }
        ensures calm { AnswersCalm call.now self.old result }
        ensures reserved { AnswersReserved call.now self.old result }
        ensures pumped { AnswersPumped call.now self.old result }
        ensures pumps { is_input call.now ≡ true → self.old.queue.pumps ≤ self.new.queue.pumps + 1 }
    {
        match call {
            Call::Open { terms } => self.open(*terms),
            Call::Windows { now, snapshot } => self.show(*now, snapshot),
            Call::FocusOn {
                now,
                display,
                channel,
                keys,
            } => self.request(*now, *display, *channel, *keys),
            Call::Notify { now, args } => replied(self.notify(*now, args)),
            Call::Pump { now } => replied(self.pump(*now)),
            Call::Tick { now } => self.tick(*now),
            Call::Receive { channel } => self.hand_out(*channel),
            Call::Finish { now, channel, seq } => replied(self.finish(*now, *channel, *seq)),
            Call::Pilfer {
                now,
                channel,
                device,
            } => self.pilfer(*now, *channel, *device),
            Call::Remove { now, channel } => replied(self.remove(*now, *channel)),
        }
    }

    /// The owner of a channel receives its next message, as a copy.
    fn hand_out(&mut self, channel: u32) -> Result<Reply, AllocError>
        ensures ok { IfOk result (λ answer. Answers (Receive channel) answer self.old self.new) }
        ensures err { OnErr result (self.new ≡ self.old) }
        ensures calm { AnswersCalm (Receive channel) self.old result }
    {
        let reply = next_reply(&self.tables.routing, channel);
        self.receive(channel)?;
        Ok(reply)
    }
}
