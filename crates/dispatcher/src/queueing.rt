//! The clock, how many steps there were, the args that wait, and what is down on each device.
ghost use Rattle.std.specs.Prelude.{◌≡◌, ◌<◌, ◌≤◌, ◌+◌, ◌-◌, ◌^◌, [], slice_get, Ok, IfOk, OnErr, OnOk, IsOk, option_copied};
ghost use Rattle.input_types.specs.DeviceRule.{device_of};
ghost use Rattle.dispatcher.specs.InboundArgs.Down.{PlansAt, state_at};
ghost use Rattle.dispatch_calls.specs.declared.call.Call.{Call};
ghost use Rattle.dispatch_calls.specs.declared.reply.Reply.{Reply};
ghost use Rattle.dispatcher.specs.InboundArgs.Waiting.{put_behind};
ghost use Rattle.dispatcher.specs.Down.{IsFirstDown};
ghost use Rattle.dispatcher.specs.Queue.{QueueIs, QueueGoes, Passes};
ghost use Rattle.dispatcher.specs.Queueing.{stepped, dispatched, with_args_room, with_pumps};

use crate::inbound::{Change, DevicesDown, Inbound, Inconsistent};
use input_types::{Args, DeviceId, KeyArgs, Moment};
use std::alloc::{AllocError, Global};
use std::marker::Model;

/// The clock is the latest time that was handed in.
#[derive(Drop)]
pub(crate) struct Queueing {
    clock: Moment,
    /// How many steps there were.
    place: u64,
    waiting: Inbound,
    down: DevicesDown,
    /// How many pumps there is room for in the channels.
    pumps: u32,
}

impl Model for Queueing {
    ghost use Rattle.dispatcher.specs.Queue.{Queue};

    ghost Value = { Queue };

    ghost view = { λ q. record {
      clock = q.clock;
      place = q.place;
      waiting = q.waiting.args;
      spare = q.waiting.spare;
      pumps = q.pumps;
      down = q.down;
    } };
}

impl Queueing {
    /// Before the first step.
    pub(crate) fn new(alloc: Global) -> Result<Queueing, AllocError>
        ensures start { IfOk result (λ q. QueueIs [] q) }
        ensures pumps { IfOk result (λ q. q.pumps ≡ 0) }
    {
        let down = DevicesDown::new(alloc)?;
        Ok(Queueing {
            clock: Moment::zero(),
            place: 0,
            waiting: Inbound::new(alloc),
            down,
            pumps: 0,
        })
    }

    pub(crate) fn clock(&self) -> Moment
        ensures { result ≡ self.now.clock }
    {
        self.clock
    }

    /// How many steps there were.
    pub(crate) fn place(&self) -> u64
        ensures { result ≡ self.now.place }
    {
        self.place
    }

    /// Checks that one more step can be counted. At one call a nanosecond, 64 bits last for 584 years; after that, each
    /// call is out of memory.
    pub(crate) fn may_step(&self) -> Result<(), AllocError>
        ensures ok { OnOk result (self.now.place < 2 ^ 64 - 1) }
        ensures few { self.now.place < 2 ^ 64 - 1 → IsOk result }
    {
        if self.place == u64::MAX {
            return Err(AllocError);
        }
        Ok(())
    }

    /// Checks that two more steps can be counted.
    pub(crate) fn may_step_twice(&self) -> Result<(), AllocError>
        ensures { OnOk result (self.now.place < 2 ^ 64 - 2) }
    {
        if u64::MAX - 1 <= self.place {
            return Err(AllocError);
        }
        Ok(())
    }

    /// The next args; None exactly if none wait.
    pub(crate) fn first(&self) -> Option<&Args>
        ensures { option_copied result ≡ slice_get self.now.waiting 0 }
    {
        self.waiting.first()
    }

    /// What args change on their device, or what is down on it if they may not come.
    pub(crate) fn plan(&self, args: &Args) -> Result<Change, Inconsistent>
        ensures plan { PlansAt self.now.down args.now result }
        ensures device { (1 ≤ device_of args.now) × (device_of args.now ≤ 8) }
    {
        self.down.plan(args)
    }

    /// The first key that is down on a device by the args that were accepted, from a scan code on.
    pub(crate) fn first_key(&self, device: DeviceId, from: u32) -> Option<u16>
        ensures key { IsFirstDown (state_at self.now.down device).keys from result }
        ensures device { (1 ≤ device) × (device ≤ 8) }
    {
        // Read only for its clause: a device has one of the numbers 1 to 8.
        let _number = device.get();
        self.down.first_key(device, from)
    }

    /// Makes room for the next `n` args. If memory runs out, nothing changes.
    pub(crate) fn reserve(&mut self, n: u32) -> Result<(), AllocError>
        ensures ok { OnOk result (self.new ≡ with_args_room n self.old) }
        ensures err { OnErr result (self.new ≡ self.old) }
        ensures reserved { n ≤ self.old.spare → IsOk result }
    {
        self.waiting.reserve(n as usize)
    }

    /// How many pumps there is room for.
    pub(crate) fn pumps(&self) -> u32
        ensures { result ≡ self.now.pumps }
    {
        self.pumps
    }

    /// Records that there is room for this many pumps.
    pub(crate) fn set_pumps(&mut self, pumps: u32)
        ensures { self.new ≡ with_pumps pumps self.old }
    {
        self.pumps = pumps;
    }

    /// Records that there is room for one pump less.
    pub(crate) fn spend_pump(&mut self)
        ensures { self.new ≡ with_pumps (self.old.pumps - 1) self.old }
    {
        self.pumps = self.pumps.saturating_sub(1);
    }

    /// Counts one more step, which hands in a time.
    pub(crate) fn step(&mut self, now: Moment)
        requires { self.old.place < 2 ^ 64 - 1 }
        ensures { self.new ≡ stepped now self.old }
    {
        self.clock = now.later(self.clock);
        self.place += 1;
    }

    /// Counts the step of a call that neither hands in args nor dispatches them. It leaves no room for pumps.
    pub(crate) fn go_on(&mut self, now: Moment)
        requires { self.old.place < 2 ^ 64 - 1 }
        ensures { self.new ≡ with_pumps 0 (stepped now self.old) }
    {
        self.step(now);
        self.pumps = 0;
    }

    /// Counts one more step, queues these args behind those that wait, and changes what was planned for them. If memory
    /// runs out, nothing changes.
    pub(crate) fn accept(
        &mut self,
        now: Moment,
        args: &Args,
        change: &Change,
    ) -> Result<(), AllocError>
        requires place { self.old.place < 2 ^ 64 - 1 }
        requires planned { PlansAt self.old.down args.now (Ok change.now) }
        ensures ok { OnOk result (QueueGoes (Call.Notify now args.now) Reply.Taken self.old self.new) }
        ensures spare { OnOk result (self.old.spare ≤ self.new.spare + 1) }
        ensures pumps { self.new.pumps ≡ self.old.pumps }
        ensures err { OnErr result (self.new ≡ self.old) }
        ensures reserved { 1 ≤ self.old.spare → IsOk result }
    {
        self.waiting.reserve(1)?;
        self.down.apply(change);
        put(&mut self.waiting, args);
        self.clock = now.later(self.clock);
        self.place += 1;
        Ok(())
    }

    /// Counts one more step, which dispatches the first args that wait.
    pub(crate) fn dispatch(&mut self, now: Moment)
        requires { self.old.place < 2 ^ 64 - 1 }
        ensures { self.new ≡ dispatched now self.old }
    {
        let _args = self.waiting.pop();
        self.clock = now.later(self.clock);
        self.place += 1;
    }

    /// Counts two more steps, which accept args and dispatch them at once. The args change what was planned for them,
    /// and there is room for one pump less.
    pub(crate) fn pass(&mut self, now: Moment, change: &Change)
        requires { self.old.place < 2 ^ 64 - 2 }
        ensures { Passes now change.now self.old self.new }
    {
        self.down.apply(change);
        self.clock = now.later(self.clock);
        self.place += 2;
        self.pumps = self.pumps.saturating_sub(1);
    }
}

/// Queues args behind those that wait. A key is written field by field, so that it is not copied on the way.
fn put(waiting: &mut Inbound, args: &Args)
    requires { 1 ≤ waiting.old.spare }
    ensures { waiting.new ≡ put_behind args.now waiting.old }
{
    match args {
        Args::Key(key) => waiting.put(Args::Key(KeyArgs {
            device: key.device,
            scan: key.scan,
            code: key.code,
            meta: key.meta,
            down: key.down,
        })),
        _ => waiting.put(*args),
    }
}
