//! The dispatcher with its history.
ghost use Rattle.std.specs.Prelude.{◌≡◌, ◌+◌, ◌++◌, ◌≤◌, ◌<◌, ◌^◌, true, [], ◌∷◌, max, reverse, option_map};
ghost use Rattle.std.specs.Prelude.{IfOk, IfSome, OnOk, OnErr, IsOk, is_some, vec_len, vec_capacity};
ghost use Rattle.dispatch_history.specs.Due.{counts, first_due, anrs};
ghost use Rattle.dispatch_history.specs.Effect.{past_of};
ghost use Rattle.dispatch_history.specs.History.{clock, live};
ghost use Rattle.dispatch_history.specs.Legal.{Legal, reply};
ghost use Rattle.dispatcher.specs.DispatchTables.Dues.{due_moment, due_pair};
ghost use Rattle.dispatcher.specs.Access.{is_opened, next_repeat, HoldsInput};
ghost use Rattle.dispatcher.specs.ReadLaws.{ReadsTouches};
ghost use Rattle.window_snapshot.specs.Mask.{is_channel};
ghost use Rattle.dispatcher.specs.Memory.{IsCalm};
ghost use Rattle.dispatcher.specs.Queueing.{args_in, is_pump};
ghost use Rattle.dispatch_core.specs.Recorded.{history_of, effects_of, stream_of, with_entry, with_spare, with_pumps, pumps_left};
ghost use Rattle.dispatch_core.specs.Recorded.{AnswersGone, IsSound, HasRoom};

use dispatch_calls::{Anr, Call, Counts, Entry, Reply};
use dispatcher::Dispatcher;
use dispatcher::cancel_synthesis::InputState;
use input_types::{Displays, Message, Moment};
use route_split::Touches;
use std::alloc::{AllocError, Global};
use std::marker::Model;

/// A dispatcher with its history: all its calls with their replies, and all messages that it ever sent.
///
/// Contracts see the displays of the devices, the entries, newest first, and for how many more of them, and of pumps,
/// there is room. Everything that can be read of it follows from these entries.
#[derive(Drop)]
pub struct Core {
    dispatcher: Dispatcher,
    entries: Vec<Entry>,
    // For how many more entries the list has room, and the dispatcher for their args.
    spare: u32,
    // For how many more calls of Notify and Pump the dispatcher has room for what pumps send.
    pumps: u32,
}

impl Model for Core {
    ghost use Rattle.std.specs.Prelude.{◌≤◌, reverse, vec_len, vec_capacity};
    ghost use Rattle.dispatch_core.specs.Recorded.{Recorded, IsRecorded, HasRoom};

    ghost Value = { Recorded };

    ghost view = { λ c. record {
      displays = c.dispatcher.displays;
      entries = reverse c.entries.items;
      spare = c.spare;
      pumps = c.pumps;
    } };

    ghost invariant = { λ c. IsRecorded (reverse c.entries.items) c.dispatcher
        × HasRoom (vec_len c.entries) (vec_capacity c.entries) c.spare
        × c.spare ≤ c.dispatcher.queue.spare
        × c.pumps ≤ c.dispatcher.queue.pumps };
}

impl Core {
    /// A dispatcher before its first call, whose devices are on these displays.
    pub fn new(alloc: Global, displays: &Displays) -> Result<Core, AllocError>
        ensures { IfOk result (λ c. c ≡ record { displays = displays.now; entries = []; spare = 0; pumps = 0 }) }
    {
        let dispatcher = Dispatcher::new(alloc, displays)?;
        Ok(Core {
            dispatcher,
            entries: Vec::new(alloc),
            spare: 0,
            pumps: 0,
        })
    }

    /// Answers a call as the history requires, and appends it with its reply to the entries. If memory runs out,
    /// nothing changes, there is no entry, and the call is dropped.
    ///
    /// If room was reserved, some calls cannot run out of memory: a notify, a receive, a finish, a removal, a focus
    /// request that changes nothing, a tick that reports no channel, and an idle pump. If room for pumps was reserved
    /// too, no pump can.
    pub fn apply(&mut self, seat: u64, call: Call) -> Result<Reply, AllocError>
        ensures reply { IfOk result (λ answer. answer ≡ reply self.old.displays (history_of self.old.entries) call) }
        ensures entry { IfOk result (λ answer.
            self.new ≡ with_entry (record { seat = seat; call = call; reply = answer }) self.old) }
        ensures err { OnErr result (self.new ≡ self.old) }
        ensures calm { 1 ≤ self.old.spare → IsCalm (effects_of self.old) call → IsOk result }
        ensures reserved { 1 ≤ self.old.spare → args_in call ≡ 1 → IsOk result }
        ensures pumped { 1 ≤ self.old.spare → is_pump call ≡ true → 1 ≤ self.old.pumps → IsOk result }

        // The history is legal, so every stream is well-formed, and says what the window of a live channel holds.
        // Nothing follows a removal.
        ensures sound { IsSound self.new }
        ensures gone { IfOk result (λ answer. AnswersGone (history_of self.old.entries) call answer) }
    {
        make_sure(&mut self.entries, self.spare, 1)?;
        match self.dispatcher.apply(&call) {
            Ok(reply) => {
                self.pumps = pumps_after(&call, self.pumps);
                note(&mut self.entries, seat, call, &reply);
                self.spare = self.spare.saturating_sub(1);
                Ok(reply)
            }
            Err(error) => Err(error),
        }
    }

    /// Makes room for the next `n` entries, and for the args that these calls may hand in. If memory runs out,
    /// nothing changes.
    pub fn reserve(&mut self, n: u32) -> Result<(), AllocError>
        ensures ok { OnOk result (self.new ≡ with_spare n self.old) }
        ensures err { OnErr result (self.new ≡ self.old) }
        ensures reserved { n ≤ self.old.spare → IsOk result }
    {
        if self.spare < n {
            self.dispatcher.reserve_args(n)?;
            make_room(&mut self.entries, n as usize)?;
            self.spare = n;
        }
        Ok(())
    }

    /// Makes room for the next `n` entries, and for what these calls need if they are `Notify` and `Pump`, in any
    /// order: then none of them can run out of memory. Each Notify and each Pump takes the room of one, and any other
    /// answered call takes all room for pumps. If memory runs out, nothing changes.
    pub fn reserve_pumps(&mut self, n: u32) -> Result<(), AllocError>
        ensures ok { OnOk result (self.new ≡ with_pumps n self.old) }
        ensures err { OnErr result (self.new ≡ self.old) }
        ensures reserved { n ≤ self.old.spare → n ≤ self.old.pumps → IsOk result }
    {
        make_sure(&mut self.entries, self.spare, n)?;
        self.dispatcher.reserve(n)?;
        self.spare = self.spare.max(n);
        self.pumps = self.pumps.max(n);
        Ok(())
    }

    /// All messages that a channel was sent, oldest first; None exactly if no channel was opened with this number.
    pub fn stream(&self, channel: u32) -> Option<&[Message]>
        ensures { option_map (λ ms. ms.now) result ≡ stream_of self.now channel }
    {
        self.dispatcher.messages(channel)
    }

    /// The calls with their replies, oldest first.
    pub fn history(&self) -> &[Entry]
        ensures entries { result.now ≡ reverse self.now.entries }
        ensures legal { Legal self.now.displays (history_of self.now.entries) }
    {
        self.entries.as_slice()
    }

    /// The clock: the latest time of any call.
    pub fn clock(&self) -> Moment
        ensures { result ≡ clock (history_of self.now.entries) }
    {
        self.dispatcher.clock()
    }

    /// How far a channel has come; None exactly if no channel was opened with this number.
    pub fn counts(&self, channel: u32) -> Option<Counts>
        ensures { result ≡ counts (effects_of self.now) channel }
    {
        self.dispatcher.counts(channel)
    }

    /// The first time at which a channel is due to be reported unresponsive, and the lowest channel that is due then.
    pub fn first_due(&self) -> Option<(u64, u32)>
        ensures { option_map due_pair result ≡ first_due (effects_of self.now) }
    {
        self.dispatcher.first_due()
    }

    /// When a channel is due to be reported: its limit after the delivery of its oldest published and unfinished
    /// message; None exactly if it is not able, or has no such message.
    pub fn due(&self, channel: u32) -> Option<u64>
        requires { is_channel channel ≡ true }
        ensures { result ≡ due_moment (effects_of self.now) channel }
    {
        self.dispatcher.due(channel)
    }

    /// When the next repeat of a key is due; None if there is none, and while args wait.
    pub fn repeat_due(&self) -> Option<u64>
        ensures { result ≡ next_repeat (effects_of self.now) }
    {
        self.dispatcher.repeat_due()
    }

    /// All ANRs so far, oldest first.
    pub fn anrs(&self) -> &[Anr]
        ensures { result.now ≡ anrs (effects_of self.now) }
    {
        self.dispatcher.anrs()
    }

    /// Who holds which pointers, since when, and who is pilfering which device. Each holder is live, can take input,
    /// and is shown on the display of the device.
    pub fn touches(&self) -> &Touches
        ensures { ReadsTouches self.now.displays (effects_of self.now) result.now }
    {
        self.dispatcher.touches()
    }

    /// The pointers and keys that are still down in a channel's stream; None exactly if no channel was opened with
    /// this number.
    pub fn input(&self, channel: u32) -> Option<&InputState>
        ensures some { is_some result ≡ is_opened (effects_of self.now) channel }
        ensures value { live (past_of (effects_of self.now)) channel ≡ true →
            IfSome result (λ input. HoldsInput (effects_of self.now) channel input.now) }
    {
        self.dispatcher.input(channel)
    }

    /// The displays of the devices.
    pub fn displays(&self) -> &Displays
        ensures { result.now ≡ self.now.displays }
    {
        self.dispatcher.displays()
    }
}

/// Makes sure that at least `n` more entries have reserved places; `spare` of them have one already.
fn make_sure(entries: &mut Vec<Entry>, spare: u32, n: u32) -> Result<(), AllocError>
    requires { HasRoom (vec_len entries.old) (vec_capacity entries.old) spare }
    ensures items { entries.new.items ≡ entries.old.items }
    ensures room { HasRoom (vec_len entries.new) (vec_capacity entries.new) spare }
    ensures ok { OnOk result (HasRoom (vec_len entries.new) (vec_capacity entries.new) (max n spare)) }
    ensures calm { n ≤ spare → IsOk result }
{
    if spare < n {
        make_room(entries, n as usize)?;
    }
    Ok(())
}

/// Makes room for some more entries.
fn make_room(entries: &mut Vec<Entry>, n: usize) -> Result<(), AllocError>
    ensures items { entries.new.items ≡ entries.old.items }
    ensures len { vec_len entries.new ≡ vec_len entries.old }
    ensures capacity { vec_capacity entries.old ≤ vec_capacity entries.new }
    ensures ok { OnOk result (vec_len entries.new + n ≤ vec_capacity entries.new) }
    ensures few { OnOk result (vec_len entries.new + n < 2 ^ 64) }
{
    // The number of entries must not reach its maximum before the room is used up.
    if usize::MAX - entries.len() < n {
        return Err(AllocError);
    }
    entries.reserve(n)
}

/// How much room for pumps a call leaves.
fn pumps_after(call: &Call, pumps: u32) -> u32
    ensures { result ≡ pumps_left call.now pumps }
{
    match call {
        Call::Notify { .. } | Call::Pump { .. } => pumps.saturating_sub(1),
        _ => 0,
    }
}

/// Appends an entry, for which there is room.
fn note(entries: &mut Vec<Entry>, seat: u64, call: Call, reply: &Reply)
    requires { vec_len entries.old < vec_capacity entries.old }
    ensures items { entries.new.items
        ≡ entries.old.items ++ record { seat = seat; call = call; reply = reply.now } ∷ [] }
    ensures len { vec_len entries.new ≡ vec_len entries.old + 1 }
    ensures capacity { vec_capacity entries.new ≡ vec_capacity entries.old }
{
    entries.push_reserved(Entry {
        seat,
        call,
        reply: *reply,
    });
}
