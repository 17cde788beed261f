//! The calls of a service with a limit that send nothing: they are those of the service below.
ghost use Rattle.std.specs.Prelude.{◌≡◌, ◌+◌, ◌-◌, ◌*◌, slice_set, ◌≤◌, ◌↔◌, ℕ, true, false, List, Option, None, Ok, Err, IfOk, IfSome, IsOk, OnOk, OnErr};
ghost use Rattle.dispatch_calls.specs.declared.call.Call.TheVariants.{Finish, Receive};
ghost use Rattle.dispatch_history.specs.Effect.{Effect, past_of};
ghost use Rattle.dispatch_history.specs.History.{received};
ghost use Rattle.dispatch_history.specs.Legal.{answered};
ghost use Rattle.dispatch_history.specs.Reply.{reply_to};
ghost use Rattle.dispatcher.specs.Access.{gone, got};
ghost use Rattle.dispatcher.specs.Memory.{MayCount};
ghost use Rattle.device_reader.specs.Cooked.{Keys, Touches};
ghost use Rattle.device_table.specs.Table.{is_there, reader_of};
ghost use Rattle.live_input.specs.Answers.{Finishes, SameClients, handed};
ghost use Rattle.live_input.specs.HandingOut.{HandsOut};
ghost use Rattle.live_input.specs.Opening.{OpensClient, OpensOn, OpensWith};
ghost use Rattle.live_input.specs.Outgoing.{taken};
ghost use Rattle.live_input.specs.Plugging.{Adds, is_slots};
ghost use Rattle.live_input.specs.Receiving.{receives};
ghost use Rattle.live_input.specs.Slots.{none_down};
ghost use Rattle.live_input.specs.Room.{HasRoom, most_args};
ghost use Rattle.live_input.specs.Seats.{is_full, is_open, number_of, seat_of};
ghost use Rattle.live_input.specs.Standing.{LiveIs};
ghost use Rattle.live_input.specs.State.{latest};
ghost use Rattle.live_input.specs.Through.{FinishesThrough};

use crate::client::Client;
use crate::limit::Limited;
use crate::live::Live;
use crate::next_any::Handed;
use crate::options::Options;
use crate::refused::{AddRefused, FinishRefused, OpenRefused};
use device_reader::touch_mapper::Cook;
use input_types::{DeviceId, DisplayId, Message, Moment};
use key_layout::Layout;
use std::alloc::AllocError;

impl Limited {
    /// As [`Live::open`].
    pub fn open(&mut self) -> Result<Client, OpenRefused>
        ensures full { (result ≡ Err OpenRefused.Full) ↔ (is_full self.old.live.seats ≡ true) }
        ensures seat { IfOk result (λ client. OpensClient client self.old.live self.new.live) }
        ensures after { (ds : List ℕ) (es : List Effect) → LiveIs ds es self.old.live → IfOk result
            (λ client. OpensOn ds es client self.old.live self.new.live) }
        ensures err { OnErr result (self.new.live ≡ self.old.live) }
        ensures wanted { self.new.wanted ≡ self.old.wanted }
    {
        self.live.open()
    }

    /// As [`Live::open_with`].
    pub fn open_with(&mut self, options: &Options) -> Result<Client, OpenRefused>
        ensures full { (result ≡ Err OpenRefused.Full) ↔ (is_full self.old.live.seats ≡ true) }
        ensures seat { IfOk result (λ client. OpensWith options.now client self.old.live self.new.live) }
        ensures after { (ds : List ℕ) (es : List Effect) → LiveIs ds es self.old.live → IfOk result
            (λ client. OpensOn ds es client self.old.live self.new.live) }
        ensures err { OnErr result (self.new.live ≡ self.old.live) }
        ensures wanted { self.new.wanted ≡ self.old.wanted }
    {
        self.live.open_with(options)
    }

    /// As [`Live::next`].
    pub fn next(&mut self, client: Client) -> Result<Option<Message>, AllocError>
        ensures stale { is_open self.old.live.seats client ≡ false
            → (result ≡ Ok None) × (self.new.live ≡ self.old.live) }
        ensures message { (ds : List ℕ) (es : List Effect) → LiveIs ds es self.old.live
            → is_open self.old.live.seats client ≡ true → IfOk result
            (λ m. m ≡ handed (seat_of self.old.live.seats client.channel)
            (got (reply_to es (Receive client.channel)))) }
        ensures after { (ds : List ℕ) (es : List Effect) → LiveIs ds es self.old.live
            → is_open self.old.live.seats client ≡ true → OnOk result
            (LiveIs ds (receives ds es self.old.live client.channel) self.new.live) }
        ensures numbers { (ds : List ℕ) (es : List Effect) → LiveIs ds es self.old.live
            → is_open self.old.live.seats client ≡ true → IfOk result (λ message. IfSome message
            (λ m. m.seq ≡ taken (seat_of self.old.live.seats client.channel) es client.channel + 1)) }
        ensures kept { (ds : List ℕ) (es : List Effect) → LiveIs ds es self.old.live
            → is_open self.old.live.seats client ≡ true → OnOk result (gone self.new.live.dispatcher client.channel
            ≡ received (past_of (answered ds (Receive client.channel) es)) client.channel) }
        ensures clients { SameClients self.old.live self.new.live }
        ensures named { self.new.live.reported ≡ self.old.live.reported }
        ensures clock { self.new.live.clock ≡ self.old.live.clock }
        ensures err { OnErr result (self.new.live ≡ self.old.live) }
        ensures calm { (ds : List ℕ) (es : List Effect) → LiveIs ds es self.old.live → MayCount es → IsOk result }
        ensures wanted { self.new.wanted ≡ self.old.wanted }
    {
        self.live.next(client)
    }

    /// As [`Live::next_any`].
    pub fn next_any(&mut self) -> Result<Option<Handed>, AllocError>
        ensures hands { (ds : List ℕ) (es : List Effect) → LiveIs ds es self.old.live
            → HandsOut ds es result self.old.live self.new.live }
        ensures clients { SameClients self.old.live self.new.live }
        ensures named { self.new.live.reported ≡ self.old.live.reported }
        ensures clock { self.new.live.clock ≡ self.old.live.clock }
        ensures err { OnErr result (self.new.live ≡ self.old.live) }
        ensures calm { (ds : List ℕ) (es : List Effect) → LiveIs ds es self.old.live → MayCount es → IsOk result }
        ensures wanted { self.new.wanted ≡ self.old.wanted }
    {
        self.live.next_any()
    }

    /// As [`Live::finish`].
    pub fn finish(&mut self, now: Moment, client: Client, seq: u64) -> Result<(), FinishRefused>
        ensures stale { is_open self.old.live.seats client ≡ false
            → (result ≡ Err FinishRefused.NotOpen) × (self.new.live ≡ self.old.live) }
        ensures after { (ds : List ℕ) (es : List Effect) → LiveIs ds es self.old.live
            → is_open self.old.live.seats client ≡ true → Finishes ds es
            (Finish (latest now self.old.live) client.channel
            (number_of (seat_of self.old.live.seats client.channel) seq))
            result self.old.live self.new.live }
        ensures clients { SameClients self.old.live self.new.live }
        ensures named { self.new.live.reported ≡ self.old.live.reported }
        ensures calm { (ds : List ℕ) (es : List Effect) → LiveIs ds es self.old.live → MayCount es
            → result ≡ Err FinishRefused.Memory → ⊥ }
        ensures wanted { self.new.wanted ≡ self.old.wanted }
    {
        self.live.finish(now, client, seq)
    }

    /// As [`Live::finish_through`].
    pub fn finish_through(
        &mut self,
        now: Moment,
        client: Client,
        seq: u64,
    ) -> Result<(), FinishRefused>
        ensures stale { is_open self.old.live.seats client ≡ false
            → (result ≡ Err FinishRefused.NotOpen) × (self.new.live ≡ self.old.live) }
        ensures after { (ds : List ℕ) (es : List Effect) → LiveIs ds es self.old.live
            → is_open self.old.live.seats client ≡ true → FinishesThrough ds (latest now self.old.live) client.channel
            (number_of (seat_of self.old.live.seats client.channel) seq) es result self.old.live self.new.live }
        ensures clients { SameClients self.old.live self.new.live }
        ensures named { self.new.live.reported ≡ self.old.live.reported }
        ensures wanted { self.new.wanted ≡ self.old.wanted }
    {
        self.live.finish_through(now, client, seq)
    }

    /// As [`Live::add_touch`].
    pub fn add_touch(
        &mut self,
        display: DisplayId,
        slots: u8,
        cook: Cook,
    ) -> Result<DeviceId, AddRefused>
        ensures slots { is_slots slots ≡ false → result ≡ Err AddRefused.BadSlots }
        ensures added { is_slots slots ≡ true
            → Adds (λ d. Touches (record { device = d; slots = slots; cook = cook })) display result
            self.old.live self.new.live }
        ensures rest { self.new.live
            ≡ record self.old.live { devices = self.new.live.devices; fingers = self.new.live.fingers } }
        ensures fingers { IfOk result
            (λ d. self.new.live.fingers ≡ slice_set self.old.live.fingers (d - 1) (none_down slots)) }
        ensures others { (d : ℕ) → 1 ≤ d → is_there self.old.live.devices d ≡ true
            → reader_of self.new.live.devices d ≡ reader_of self.old.live.devices d }
        ensures stands { (ds : List ℕ) (es : List Effect) → LiveIs ds es self.old.live → LiveIs ds es self.new.live }
        ensures err { OnErr result (self.new.live ≡ self.old.live) }
        ensures wanted { self.new.wanted ≡ self.old.wanted }
    {
        self.live.add_touch(display, slots, cook)
    }

    /// As [`Live::add_keys`].
    pub fn add_keys(&mut self, display: DisplayId, layout: Layout) -> Result<DeviceId, AddRefused>
        ensures added { Adds (λ d. Keys (record { device = d; layout = layout })) display result
            self.old.live self.new.live }
        ensures rest { self.new.live
            ≡ record self.old.live { devices = self.new.live.devices; fingers = self.new.live.fingers } }
        ensures fingers { IfOk result
            (λ d. self.new.live.fingers ≡ slice_set self.old.live.fingers (d - 1) (none_down 0)) }
        ensures others { (d : ℕ) → 1 ≤ d → is_there self.old.live.devices d ≡ true
            → reader_of self.new.live.devices d ≡ reader_of self.old.live.devices d }
        ensures stands { (ds : List ℕ) (es : List Effect) → LiveIs ds es self.old.live → LiveIs ds es self.new.live }
        ensures err { OnErr result (self.new.live ≡ self.old.live) }
        ensures wanted { self.new.wanted ≡ self.old.wanted }
    {
        self.live.add_keys(display, layout)
    }

    /// As [`Live::reserve`].
    pub fn reserve(&mut self, events: u16) -> Result<(), AllocError>
        ensures room { OnOk result (HasRoom (events * most_args) self.new.live) }
        ensures rest { self.new.live ≡ record self.old.live { dispatcher = self.new.live.dispatcher } }
        ensures stands { (ds : List ℕ) (es : List Effect) → LiveIs ds es self.old.live → LiveIs ds es self.new.live }
        ensures err { OnErr result (self.new.live ≡ self.old.live) }
        ensures again { HasRoom (events * most_args) self.old.live → IsOk result }
        ensures wanted { self.new.wanted ≡ self.old.wanted }
    {
        self.live.reserve(events)
    }

    /// The service below, to read from: what can be asked about clients, devices and the focus.
    pub fn live(&self) -> &Live
        ensures { result.now ≡ self.now.live }
    {
        &self.live
    }
}
