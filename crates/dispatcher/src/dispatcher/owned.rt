//! Channels that are opened and removed, and the calls of their owners.
ghost use Rattle.std.specs.Prelude.{◌≡◌, IfOk, OnErr, OnOk};
ghost use Rattle.dispatch_calls.specs.declared.call.Call.TheVariants.{Open, Receive, Finish, Remove};
ghost use Rattle.dispatcher.specs.Answered.{Answers, AnswersCalm, StepsOn};
ghost use Rattle.dispatcher.specs.Outcomes.{reply_of};

use super::Dispatcher;
use crate::focusing::open;
use crate::outcome::Outcome;
use crate::owners::{finish, receive, remove};
use dispatch_calls::{Reply, Terms};
use input_types::Moment;
use std::alloc::AllocError;

impl Dispatcher {
    /// Opens a channel on these terms. Out of memory changes nothing.
    pub fn open(&mut self, terms: Terms) -> Result<Reply, AllocError>
        ensures ok { IfOk result (λ answer. Answers (Open terms) answer self.old self.new) }
        ensures err { OnErr result (self.new ≡ self.old) }
    {
        self.tables.queueing.may_step()?;
        let now = Moment::zero();
        let clock = now.later(self.tables.queueing.clock());
        let place = self.tables.queueing.place();
        let reply = open(&mut self.tables.routing, terms, place, clock)?;
        self.tables.queueing.go_on(now);
        Ok(reply)
    }

    /// The owner of a channel receives the message that [`next`](Dispatcher::next) lends, or would lend had it not been
    /// released. It is not copied.
    pub fn receive(&mut self, channel: u32) -> Result<(), AllocError>
        ensures ok { OnOk result (StepsOn (Receive channel) self.old self.new) }
        ensures err { OnErr result (self.new ≡ self.old) }
        ensures calm { AnswersCalm (Receive channel) self.old result }
    {
        self.tables.queueing.may_step()?;
        self.tables.queueing.go_on(Moment::zero());
        receive(&mut self.tables.routing, channel);
        Ok(())
    }

    /// The owner of a channel finishes a message.
    pub fn finish(&mut self, now: Moment, channel: u32, seq: u64) -> Result<Outcome, AllocError>
        ensures ok { IfOk result
            (λ outcome. Answers (Finish now channel seq) (reply_of outcome) self.old self.new) }
        ensures err { OnErr result (self.new ≡ self.old) }
        ensures calm { AnswersCalm (Finish now channel seq) self.old result }
    {
        self.tables.queueing.may_step()?;
        let clock = now.later(self.tables.queueing.clock());
        self.tables.queueing.go_on(now);
        Ok(finish(&mut self.tables.routing, channel, seq, clock))
    }

    /// Closes a channel for good. Nobody is sent anything.
    pub fn remove(&mut self, now: Moment, channel: u32) -> Result<Outcome, AllocError>
        ensures ok { IfOk result (λ outcome. Answers (Remove now channel) (reply_of outcome) self.old self.new) }
        ensures err { OnErr result (self.new ≡ self.old) }
        ensures calm { AnswersCalm (Remove now channel) self.old result }
    {
        self.tables.queueing.may_step()?;
        let place = self.tables.queueing.place();
        self.tables.queueing.go_on(now);
        Ok(remove(&mut self.tables.routing, channel, place))
    }
}
