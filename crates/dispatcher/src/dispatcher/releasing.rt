//! Releases messages and ANRs.
ghost use Rattle.std.specs.Prelude.{◌≡◌, ◌≤◌, ◌==◌, ℕ, true, false, List, length, max};
ghost use Rattle.dispatch_history.specs.Due.{anrs};
ghost use Rattle.dispatch_history.specs.Effect.{Effect, past_of, stream};
ghost use Rattle.dispatch_history.specs.History.{live, received};
ghost use Rattle.dispatcher.specs.Access.{is_opened, gone, anrs_released};
ghost use Rattle.dispatcher.specs.Dispatching.{IsAfter, StandsFor};

use super::Dispatcher;
use window_snapshot::mask_has;

impl Dispatcher {
    /// Releases the messages of a channel that its owner received. They are no longer needed. Their numbers stay in
    /// use.
    pub fn release(&mut self, channel: u32)
        ensures stays { (es : List Effect) → StandsFor es self.old → StandsFor es self.new }
        ensures known { (es : List Effect) → IsAfter es self.old → IsAfter es self.new }
        ensures displays { self.new.displays ≡ self.old.displays }
        ensures gone { (es : List Effect) → IsAfter es self.old → is_opened es channel ≡ true
            → gone self.new channel ≡ max (gone self.old channel) (received (past_of es) channel) }
        ensures live { (es : List Effect) → StandsFor es self.old → is_opened es channel ≡ true
            → live (past_of es) channel ≡ true → gone self.new channel ≡ received (past_of es) channel }
        ensures others { (c : ℕ) → 1 ≤ c → (c == channel) ≡ false → gone self.new c ≡ gone self.old c }
        ensures anrs { anrs_released self.new ≡ anrs_released self.old }
        ensures room { self.new.queue ≡ self.old.queue }
    {
        if 0 < channel && channel <= self.tables.routing.channels.opened() {
            self.tables.routing.channels.release(channel);
        }
    }

    /// Releases all messages of a channel, received or not. A reader ahead of the owners calls it once it has read them
    /// by [`messages`](Dispatcher::messages). Their numbers stay in use. The owner is handed none of them, so what is
    /// kept no longer stands for its history, but it matches the history except for released messages, and all calls
    /// preserve that.
    pub fn release_each(&mut self, channel: u32)
        ensures known { (es : List Effect) → IsAfter es self.old → IsAfter es self.new }
        ensures displays { self.new.displays ≡ self.old.displays }
        ensures gone { (es : List Effect) → IsAfter es self.old → is_opened es channel ≡ true
            → gone self.new channel ≡ length (stream es channel) }
        ensures others { (c : ℕ) → 1 ≤ c → (c == channel) ≡ false → gone self.new c ≡ gone self.old c }
        ensures anrs { anrs_released self.new ≡ anrs_released self.old }
        ensures room { self.new.queue ≡ self.old.queue }
    {
        if 0 < channel && channel <= self.tables.routing.channels.opened() {
            self.tables.routing.channels.release_each(channel);
        }
    }

    /// Releases all messages of a removed channel, and gives back their memory: only its counts are kept. A live
    /// channel stays as it is. Read what the owner did not receive by [`messages`](Dispatcher::messages) before.
    pub fn release_all(&mut self, channel: u32)
        ensures stays { (es : List Effect) → StandsFor es self.old → StandsFor es self.new }
        ensures known { (es : List Effect) → IsAfter es self.old → IsAfter es self.new }
        ensures displays { self.new.displays ≡ self.old.displays }
        ensures gone { (es : List Effect) → IsAfter es self.old → is_opened es channel ≡ true
            → live (past_of es) channel ≡ false → gone self.new channel ≡ length (stream es channel) }
        ensures live { (es : List Effect) → IsAfter es self.old → live (past_of es) channel ≡ true
            → gone self.new channel ≡ gone self.old channel }
        ensures others { (c : ℕ) → 1 ≤ c → (c == channel) ≡ false → gone self.new c ≡ gone self.old c }
        ensures anrs { anrs_released self.new ≡ anrs_released self.old }
        ensures room { self.new.queue ≡ self.old.queue }
    {
        if mask_has(self.tables.routing.channels.live(), channel) {
            return;
        }
        if 0 < channel && channel <= self.tables.routing.channels.opened() {
            self.tables.routing.channels.release_all(channel);
        }
    }

    /// Releases the ANRs so far, and gives back their memory.
    pub fn release_anrs(&mut self)
        ensures stays { (es : List Effect) → StandsFor es self.old → StandsFor es self.new }
        ensures known { (es : List Effect) → IsAfter es self.old → IsAfter es self.new }
        ensures displays { self.new.displays ≡ self.old.displays }
        ensures gone { (es : List Effect) → IsAfter es self.old → anrs_released self.new ≡ length (anrs es) }
        ensures messages { (c : ℕ) → 1 ≤ c → gone self.new c ≡ gone self.old c }
        ensures room { self.new.queue ≡ self.old.queue }
    {
        self.tables.routing.channels.release_anrs();
    }
}
