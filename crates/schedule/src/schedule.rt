//! The run itself.
ghost use Rattle.std.specs.Prelude.{◌≡◌, ◌≤◌, ◌<◌, ◌+◌, ◌-◌, ℕ, false, List, OnOk, replicate, option_map};
ghost use Rattle.dispatch_calls.specs.declared.call.Call.{Call as CallView};
ghost use Rattle.dispatch_history.specs.Effect.{Effect, past_of};
ghost use Rattle.dispatch_history.specs.Legal.{answered};
ghost use Rattle.dispatch_history.specs.Ordered.{extend, is_scripted, scripted, received_all};
ghost use Rattle.dispatch_history.specs.Plan.{Plan as PlanView};
ghost use Rattle.dispatcher.specs.Access.{gone, anrs_released};
ghost use Rattle.dispatcher.specs.Dispatching.{IsAfter};
ghost use Rattle.schedule.specs.declared.keeping.Lines.{Lines};
ghost use Rattle.schedule.specs.declared.keeping.Lines.TheVariants.{Causes};
ghost use Rattle.why_text.specs.Text.{why_text};
ghost use Rattle.schedule.specs.Causes.{Applies};
ghost use Rattle.schedule.specs.Kinds.{is_receiving, is_finishing};
ghost use Rattle.schedule.specs.Released.{AllReleased, KeepsUnfinished};
ghost use Rattle.schedule.specs.More.{ComesTo};
ghost use Rattle.schedule.specs.State.{HasWith};
ghost use Rattle.schedule.specs.Making.{CountsAll, CountsNoFewer, CountsOne, GoesOn, GoesOnAt, KeepsMessages, Makes, MakesWith};
ghost use Rattle.schedule.specs.Making.{NoFewerMessages, Receives};

use crate::stream::Stream;
use dispatch_calls::Call;
use dispatcher::Dispatcher;
use input_types::Moment;
use std::alloc::{AllocError, Global};
use std::marker::Model;
use std::mem;
use why_lines::take_step;
use window_snapshot::{mask_first, mask_without};

/// A run of a plan, to which args come one by one.
#[derive(Drop)]
pub struct Schedule {
    pub(crate) dispatcher: Dispatcher,
    pub(crate) streams: Vec<Stream>,
    /// The causes of the calls so far as a text, if the run writes causes.
    pub(crate) causes: Option<Vec<u8>>,
    /// How many steps were made.
    pub(crate) next: usize,
    pub(crate) calls: u64,
    /// How many messages all channels together released.
    pub(crate) messages: u64,
    /// The time of the latest args.
    pub(crate) latest: Moment,
}

impl Model for Schedule {
    ghost use Rattle.std.specs.Prelude.{option_map};
    ghost use Rattle.schedule.specs.State.{ScheduleState};

    ghost Value = { ScheduleState };

    ghost view = { λ s. record {
      dispatcher = s.dispatcher;
      lines = s.streams.items;
      causes = option_map (λ text. text.items) s.causes;
      next = s.next;
      calls = s.calls;
      messages = s.messages;
      latest = s.latest;
    } };
}

impl Schedule {
    /// How many steps were made.
    pub fn steps_made(&self) -> usize
        ensures { result ≡ self.now.next }
    {
        self.next
    }

    /// Takes out the text of the causes of the calls so far, of a run that writes causes. The causes of later calls are
    /// lost.
    pub fn take_causes(&mut self, alloc: Global) -> Vec<u8>
        ensures { (plan : PlanView) (es : List Effect) → HasWith Causes plan es self.old
            → result.items ≡ why_text plan.displays es }
    {
        match mem::replace(&mut self.causes, None) {
            Some(text) => text,
            None => Vec::new(alloc),
        }
    }

    /// Makes one call that is not a receive, after which `next` steps were made, and then drains all messages to lines
    /// and releases them.
    pub fn step(&mut self, call: &Call, next: usize) -> Result<(), AllocError>
        ensures after { MakesWith result call.now next self.old self.new }
        ensures calls { CountsOne result self.old self.new }
        ensures counted { (how : Lines) (plan : PlanView) (es : List Effect) → HasWith how plan es self.old
            → is_receiving call.now ≡ false
            → next ≡ is_scripted call.now + scripted (past_of es)
            → CountsAll result (answered plan.displays call.now es) self.new }
        ensures messages { NoFewerMessages self.old self.new }
        ensures more { GoesOnAt self.old self.new }
    {
        self.make(call, next)?;
        self.drain_sent()
    }

    /// Makes one call that is not a receive, after which `next` steps were made. If it removes a channel, only the
    /// channel's lines are kept.
    pub(crate) fn make(&mut self, call: &Call, next: usize) -> Result<(), AllocError>
        ensures after { MakesWith result call.now next self.old self.new }
        ensures calls { CountsOne result self.old self.new }
        ensures keeps { (how : Lines) (plan : PlanView) (es : List Effect) → HasWith how plan es self.old
            → is_receiving call.now ≡ false
            → next ≡ is_scripted call.now + scripted (past_of es)
            → is_finishing call.now ≡ false → AllReleased es self.old.dispatcher
            → OnOk result (KeepsUnfinished (answered plan.displays call.now es) self.new.dispatcher) }
        ensures messages { NoFewerMessages self.old self.new }
        ensures more { GoesOnAt self.old self.new }
    {
        self.apply(call, next)?;
        match call {
            Call::Remove { channel, .. } => self.drain_removed(*channel),
            _ => Ok(()),
        }
    }

    /// Makes the call alone.
    pub(crate) fn apply(&mut self, call: &Call, next: usize) -> Result<(), AllocError>
        ensures after { MakesWith result call.now next self.old self.new }
        ensures calls { CountsOne result self.old self.new }
        ensures kept { KeepsMessages self.old self.new }
        ensures messages { self.new.messages ≡ self.old.messages }
    {
        match apply_call(&mut self.causes, &mut self.dispatcher, call) {
            Ok(()) => {
                self.next = next;
                self.calls = self.calls.saturating_add(1);
                Ok(())
            }
            Err(error) => Err(error),
        }
    }

    /// The owner of a channel receives its next message, if there is one.
    #[inline(always)]
    pub fn receive_next(&mut self, channel: u32) -> Result<(), AllocError>
        ensures after { Makes result (CallView.Receive channel) self.old self.new }
        ensures calls { CountsNoFewer result self.old self.new }
        ensures kept { KeepsMessages self.old self.new }
        ensures messages { self.new.messages ≡ self.old.messages }
    {
        match self.dispatcher.receive(channel) {
            Ok(()) => {
                self.calls = self.calls.saturating_add(1);
                Ok(())
            }
            Err(error) => Err(error),
        }
    }

    /// The owner of a channel receives this many messages.
    #[inline(always)]
    fn receive_many(&mut self, channel: u32, count: u64) -> Result<(), AllocError>
        ensures after { (how : Lines) (plan : PlanView) (es : List Effect) → HasWith how plan es self.old
            → OnOk result
            (HasWith how plan (extend plan.displays es (replicate count (CallView.Receive channel))) self.new) }
        ensures calls { CountsNoFewer result self.old self.new }
        ensures kept { KeepsMessages self.old self.new }
    {
        for _ in 0..count {
            self.receive_next(channel)?;
        }
        Ok(())
    }

    /// Receives all published messages of a channel. Usually there are none, so the call is inlined into its loop.
    #[inline(always)]
    pub(crate) fn receive(&mut self, channel: u32) -> Result<(), AllocError>
        ensures after { Receives result channel self.old self.new }
        ensures calls { CountsNoFewer result self.old self.new }
        ensures kept { KeepsMessages self.old self.new }
    {
        let Some(counts) = self.dispatcher.counts(channel) else {
            return Ok(());
        };
        let left = counts.published.saturating_sub(counts.received);
        if 0 < left && counts.live {
            self.receive_many(channel, left)?;
        }
        Ok(())
    }

    /// Receives all published messages of the live channels, and drains what those channels were sent. It visits only
    /// channels with an unfinished message: the owner of any other channel has received everything.
    pub(crate) fn receive_all(&mut self) -> Result<(), AllocError>
        ensures after { (how : Lines) (plan : PlanView) (es : List Effect) → HasWith how plan es self.old
            → OnOk result (HasWith how plan (received_all plan.displays es) self.new) }
        ensures released { (how : Lines) (plan : PlanView) (es : List Effect) → HasWith how plan es self.old
            → KeepsUnfinished es self.old.dispatcher → OnOk result (AllReleased es self.new.dispatcher) }
        ensures calls { CountsNoFewer result self.old self.new }
        ensures more { GoesOn self.old self.new }
        ensures latest { self.new.latest ≡ self.old.latest }
    {
        let mut rest = self.dispatcher.unfinished();
        while rest != 0 {
            let channel = mask_first(rest);
            self.receive(channel)?;
            self.drain(channel)?;
            rest = mask_without(rest, channel);
        }
        Ok(())
    }
}

/// Makes a call, and appends its causes to the text of the causes, if there is one.
fn apply_call(
    causes: &mut Option<Vec<u8>>,
    dispatcher: &mut Dispatcher,
    call: &Call,
) -> Result<(), AllocError>
    ensures after { (es : List Effect) → IsAfter es dispatcher.old
        → OnOk result (Applies call.now es dispatcher.old.displays
        (option_map (λ text. text.items) causes.old) (option_map (λ text. text.items) causes.new) dispatcher.new) }
    ensures displays { dispatcher.new.displays ≡ dispatcher.old.displays }
    ensures gone { (c : ℕ) → 1 ≤ c → gone dispatcher.new c ≡ gone dispatcher.old c }
    ensures anrs { anrs_released dispatcher.new ≡ anrs_released dispatcher.old }
    ensures more { (es : List Effect) → ComesTo es dispatcher.old → ComesTo es dispatcher.new }
{
    match causes {
        Some(text) => {
            why_lines::apply(text, dispatcher, call)?;
            Ok(())
        }
        None => {
            take_step(dispatcher, call)?;
            Ok(())
        }
    }
}
