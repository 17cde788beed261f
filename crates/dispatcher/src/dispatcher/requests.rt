//! Other windows, requests of the focus, ticks and pilfers.
ghost use Rattle.std.specs.Prelude.{◌≡◌, IfOk, OnErr};
ghost use Rattle.dispatch_calls.specs.declared.call.Call.TheVariants.{Windows, FocusOn, Tick, Pilfer};
ghost use Rattle.dispatcher.specs.Answered.{Answers, AnswersCalm};

use super::Dispatcher;
use crate::anr::tick;
use crate::focusing::{request, show};
use crate::motions::pilfer;
use dispatch_calls::Reply;
use input_types::{DeviceId, DisplayId, Moment};
use std::alloc::AllocError;
use window_snapshot::Snapshot;

impl Dispatcher {
    /// Replaces the windows. Out of memory changes nothing.
    pub fn show(&mut self, now: Moment, snapshot: &Snapshot) -> Result<Reply, AllocError>
        ensures ok { IfOk result (λ answer. Answers (Windows now snapshot.now) answer self.old self.new) }
        ensures err { OnErr result (self.new ≡ self.old) }
    {
        self.tables.queueing.may_step()?;
        let clock = now.later(self.tables.queueing.clock());
        let place = self.tables.queueing.place();
        let reply = show(&mut self.tables.routing, snapshot, place, clock)?;
        self.tables.queueing.go_on(now);
        Ok(reply)
    }

    /// Requests the focus of a display for a channel, or for none. If `keys` is set, keys go to the focused window of
    /// this display from now on; if not, they go where they went. Out of memory changes nothing; a request that
    /// changes no focus needs none.
    pub fn request(
        &mut self,
        now: Moment,
        display: DisplayId,
        channel: Option<u32>,
        keys: bool,
    ) -> Result<Reply, AllocError>
        ensures ok { IfOk result (λ answer. Answers (FocusOn now display channel keys) answer self.old self.new) }
        ensures err { OnErr result (self.new ≡ self.old) }
        ensures calm { AnswersCalm (FocusOn now display channel keys) self.old result }
    {
        self.tables.queueing.may_step()?;
        let clock = now.later(self.tables.queueing.clock());
        let place = self.tables.queueing.place();
        let reply = request(
            &mut self.tables.routing,
            display,
            channel,
            keys,
            place,
            clock,
        )?;
        self.tables.queueing.go_on(now);
        Ok(reply)
    }

    /// Reports an ANR of each window whose oldest message was left unfinished for too long. Out of memory changes
    /// nothing; a tick that reports none needs none.
    pub fn tick(&mut self, now: Moment) -> Result<Reply, AllocError>
        ensures ok { IfOk result (λ answer. Answers (Tick now) answer self.old self.new) }
        ensures err { OnErr result (self.new ≡ self.old) }
        ensures calm { AnswersCalm (Tick now) self.old result }
    {
        self.tables.queueing.may_step()?;
        let clock = now.later(self.tables.queueing.clock());
        let place = self.tables.queueing.place();
        let reply = tick(&mut self.tables.routing, place, clock)?;
        self.tables.queueing.go_on(now);
        Ok(reply)
    }

    /// A spy takes the pointers of a device that it holds from all other windows. Out of memory changes nothing.
    pub fn pilfer(
        &mut self,
        now: Moment,
        channel: u32,
        device: DeviceId,
    ) -> Result<Reply, AllocError>
        ensures ok { IfOk result (λ answer. Answers (Pilfer now channel device) answer self.old self.new) }
        ensures err { OnErr result (self.new ≡ self.old) }
    {
        self.tables.queueing.may_step()?;
        let clock = now.later(self.tables.queueing.clock());
        let place = self.tables.queueing.place();
        let reply = pilfer(&mut self.tables.routing, channel, device, place, clock)?;
        self.tables.queueing.go_on(now);
        Ok(reply)
    }
}
