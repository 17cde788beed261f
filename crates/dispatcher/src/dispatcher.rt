//! The dispatcher.
ghost use Rattle.std.specs.Prelude.{◌≡◌, ◌≤◌, ◌+◌, ℕ, true, false, [], List, None, drop, is_some, option_map};
ghost use Rattle.std.specs.Prelude.{IfOk, IfSome, OnErr, OnOk, IsOk};
ghost use Rattle.std.specs.Option.{option_copied};
ghost use Rattle.dispatch_calls.specs.declared.call.Call.{Call as CallView};
ghost use Rattle.dispatch_calls.specs.declared.reply.Reply.{Reply as Answer};
ghost use Rattle.dispatch_history.specs.Due.{counts, first_due, anrs};
ghost use Rattle.dispatch_history.specs.Effect.{Effect, past_of};
ghost use Rattle.dispatch_history.specs.Effects.{step};
ghost use Rattle.dispatch_history.specs.History.{live, opened};
ghost use Rattle.dispatch_history.specs.Reply.{reply_to};
ghost use Rattle.dispatcher.specs.DispatchTables.Channel.{MayGo};
ghost use Rattle.dispatcher.specs.DispatchTables.Dues.{due_moment, due_pair};
ghost use Rattle.dispatcher.specs.ReadLaws.{ReadsTouches};
ghost use Rattle.window_snapshot.specs.Mask.{is_channel};
ghost use Rattle.dispatcher.specs.Access.{is_opened, gone, anrs_released, messages_of, has_messages, got, oldest_delivery};
ghost use Rattle.dispatcher.specs.Access.{is_waiting, next_repeat, HoldsInput};
ghost use Rattle.dispatcher.specs.Covering.{CoversAre};
ghost use Rattle.dispatcher.specs.Dispatching.{IsAfter, StandsFor};
ghost use Rattle.dispatcher.specs.CancelSynthesis.Tracked.{pointers_of};
ghost use Rattle.dispatcher.specs.DispatchChannels.Table.{input_of};
ghost use Rattle.dispatcher.specs.Memory.{IsCalm, MayCount};
ghost use Rattle.dispatcher.specs.Queueing.{args_in, is_input, is_pump};

mod apply;
mod asked;
mod down;
mod inputs;
mod owned;
mod passing;
mod pending;
mod releasing;
mod requests;
mod room;

use crate::cancel_synthesis::InputState;
use crate::key_steps::repeat_due;
use crate::tables::Tables;
use crate::window_covers::Covers;
use dispatch_calls::{Anr, Call, Counts, Reply};
use input_types::{Displays, Message, Moment};
use route_split::Touches;
use std::alloc::{AllocError, Global};
use std::marker::Model;
use window_snapshot::mask_has;

/// Routes args to windows, and answers each call as the calls before it say. It keeps what the next answers need, and
/// not its history.
///
/// Contracts see the displays of the devices, and what is kept, table by table. What is kept stands for a history: each
/// answered call makes it stand for the same history with one step more. A reader ahead of the owners may drain and
/// release what is sent. What is kept then matches that history except for released messages, and no message is handed
/// out from it.
#[derive(Drop)]
pub struct Dispatcher {
    tables: Tables,
}

impl Model for Dispatcher {
    ghost use Rattle.dispatcher.specs.Dispatching.{Dispatching, IsOfHistory, seen_of};
    ghost use Rattle.dispatcher.specs.Roomy.{KeepsPromise};

    ghost Value = { Dispatching };

    ghost view = { λ d. let r = d.tables.routing in
        seen_of r.displays d.tables.queueing r.shown r.touches r.covers r.channels r.focus r.repeat };

    ghost invariant = { λ d. let r = d.tables.routing in
        IsOfHistory (seen_of r.displays d.tables.queueing r.shown r.touches r.covers r.channels r.focus r.repeat)
        × KeepsPromise d.tables };
}

impl Dispatcher {
    /// A dispatcher before its first call, whose devices are on these displays.
    pub fn new(alloc: Global, displays: &Displays) -> Result<Dispatcher, AllocError>
        ensures start { IfOk result (λ d. StandsFor [] d) }
        ensures displays { IfOk result (λ d. d.displays ≡ displays.now) }
        ensures gone { IfOk result (λ d. (c : ℕ) → 1 ≤ c → gone d c ≡ 0) }
        ensures anrs { IfOk result (λ d. anrs_released d ≡ 0) }
    {
        let tables = Tables::new(alloc, displays)?;
        Ok(Dispatcher { tables })
    }

    /// How many channels were opened. They have the numbers from 1 to this.
    pub fn opened(&self) -> u32
        ensures value { (es : List Effect) → IsAfter es self.now → result ≡ opened (past_of es) }
        ensures few { result ≤ 64 }
    {
        self.tables.routing.channels.opened()
    }

    /// How far a channel got; None exactly if no channel was opened with this number.
    pub fn counts(&self, channel: u32) -> Option<Counts>
        ensures { (es : List Effect) → IsAfter es self.now → result ≡ counts es channel }
    {
        self.tables.routing.channels.counts(channel)
    }

    /// The messages of a channel that were not released; None exactly if no channel was opened with this number. Of a
    /// live channel only received messages were released.
    #[tactic(auto, using(crate::proofs::Made::Releasing::most_gone))]
    pub fn messages(&self, channel: u32) -> Option<&[Message]>
        ensures value { (es : List Effect) → IsAfter es self.now
            → option_map (λ ms. ms.now) result ≡ messages_of es self.now channel }
        ensures most { (es : List Effect) → StandsFor es self.now → is_opened es channel ≡ true
            → MayGo es channel (gone self.now channel) }
    {
        if 0 < channel && channel <= self.tables.routing.channels.opened() {
            Some(self.tables.routing.channels.messages(channel))
        } else {
            None
        }
    }

    /// Whether a channel has messages that were not released.
    pub fn has_messages(&self, channel: u32) -> bool
        ensures { (es : List Effect) → IsAfter es self.now → result ≡ has_messages es self.now channel }
    {
        match self.messages(channel) {
            Some(messages) => !messages.is_empty(),
            None => false,
        }
    }

    /// The next message of the owner of a channel, if the channel is live and has one.
    pub fn next(&self, channel: u32) -> Option<&Message>
        ensures { (es : List Effect) → StandsFor es self.now
            → option_copied result ≡ got (reply_to es (CallView.Receive channel)) }
    {
        if mask_has(self.tables.routing.channels.live(), channel) {
            self.tables.routing.channels.next(channel)
        } else {
            None
        }
    }

    /// The number and the delivery of the oldest published and unfinished message of a channel. None if there is no
    /// such message, or no channel with this number.
    pub fn oldest(&self, channel: u32) -> Option<(u64, Moment)>
        ensures value { (es : List Effect) → IsAfter es self.now → is_opened es channel ≡ true
            → result ≡ oldest_delivery es channel }
        ensures none { (es : List Effect) → IsAfter es self.now → is_opened es channel ≡ false → result ≡ None }
    {
        if 0 < channel && channel <= self.tables.routing.channels.opened() {
            self.tables.routing.channels.oldest(channel)
        } else {
            None
        }
    }

    /// When a channel is due to be reported: its limit after the delivery of its oldest published and unfinished
    /// message. None exactly if the channel is not able, or has no such message. So this is the tracker of due times.
    pub fn due(&self, channel: u32) -> Option<u64>
        requires { is_channel channel ≡ true }
        ensures { (es : List Effect) → IsAfter es self.now → result ≡ due_moment es channel }
    {
        self.tables.routing.channels.due(channel)
    }

    /// The first time at which a channel is due to be reported unresponsive, and the lowest channel that is due then.
    pub fn first_due(&self) -> Option<(u64, u32)>
        ensures { (es : List Effect) → IsAfter es self.now → option_map due_pair result ≡ first_due es }
    {
        self.tables.routing.channels.first_due()
    }

    /// Whether args wait to be dispatched.
    pub fn is_waiting(&self) -> bool
        ensures { (es : List Effect) → IsAfter es self.now → result ≡ is_waiting es }
    {
        self.tables.queueing.first().is_some()
    }

    /// When the next repeat of a key is due; None if no repeat can become due, or if args wait.
    pub fn repeat_due(&self) -> Option<u64>
        ensures { (es : List Effect) → IsAfter es self.now → result ≡ next_repeat es }
    {
        if self.is_waiting() {
            None
        } else {
            repeat_due(&self.tables.routing)
        }
    }

    /// The ANRs that were not released, oldest first.
    pub fn anrs(&self) -> &[Anr]
        ensures { (es : List Effect) → IsAfter es self.now
            → result.now ≡ drop (anrs_released self.now) (anrs es) }
    {
        self.tables.routing.channels.anrs()
    }

    /// Who holds which pointers, since when, and who is pilfering which device. Each holder is live, able to take
    /// input, and shown on the display of the device.
    pub fn touches(&self) -> &Touches
        ensures value { result.now ≡ self.now.touches }
        ensures reads { (es : List Effect) → IsAfter es self.now
            → ReadsTouches self.now.displays es self.now.touches }
    {
        &self.tables.routing.touches
    }

    /// What lay over each window when it was given pointers, for the windows that hold one: exactly what the rules say.
    pub fn covers(&self) -> &Covers
        ensures value { result.now ≡ self.now.covers }
        ensures reads { (es : List Effect) → IsAfter es self.now → CoversAre es self.now.covers }
    {
        &self.tables.routing.covers
    }

    /// The pointers and keys still down in the stream of a channel's window; None exactly if no channel was opened with
    /// this number.
    pub fn input(&self, channel: u32) -> Option<&InputState>
        ensures some { (es : List Effect) → IsAfter es self.now → is_some result ≡ is_opened es channel }
        ensures value { (es : List Effect) → IsAfter es self.now → live (past_of es) channel ≡ true
            → IfSome result (λ input. HoldsInput es channel input.now) }
        ensures pointers { (device : ℕ) → IfSome result (λ input.
            pointers_of input.now device ≡ pointers_of (input_of self.now.channels channel) device) }
    {
        if 0 < channel && channel <= self.tables.routing.channels.opened() {
            Some(self.tables.routing.channels.input(channel))
        } else {
            None
        }
    }
}
