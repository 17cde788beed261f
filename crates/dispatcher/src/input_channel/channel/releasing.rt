//! Messages that are no longer kept, or never were.
ghost use Rattle.std.specs.Prelude.{◌≡◌, ◌≤◌, ◌==◌, ℕ, [], length};
ghost use Rattle.input_types.specs.declared.message.Body.{Body as BodyView};
ghost use Rattle.dispatcher.specs.InputChannel.State.{enqueued, release_of, each_released, all_released};

use super::Channel;

impl Channel {
    /// Whether it keeps no message: each one was released.
    pub fn keeps_none(&self) -> bool
        ensures { result ≡ (length self.now.messages == 0) }
    {
        self.kept.messages().is_empty()
    }

    /// Counts a message, whatever it says, as if it were queued and released. No other may be kept.
    pub fn count_past(&mut self)
        requires none { self.old.messages ≡ [] }
        requires room { 1 ≤ self.old.spare }
        ensures { (body : BodyView) (moment : ℕ) → self.new ≡ each_released (enqueued body moment self.old) }
    {
        self.kept.count_past();
    }

    /// Releases the messages that were received. Their numbers stay in use.
    pub fn release(&mut self)
        ensures { self.new ≡ release_of self.old }
    {
        let count = self.received.saturating_sub(self.kept.gone());
        self.kept.release(count as usize);
    }

    /// Releases all messages, received or not. A reader ahead of the owner calls it once it has read them. Their
    /// numbers stay in use, and the room for more stays. The owner is handed none of them any more, but
    /// `receive_uncopied` goes on counting.
    pub fn release_each(&mut self)
        ensures { self.new ≡ each_released self.old }
    {
        self.kept.release_each();
    }

    /// Releases all messages, received or not, and gives back their memory. Their numbers stay in use, and the owner is
    /// handed none of them any more.
    pub fn release_all(&mut self)
        ensures { self.new ≡ all_released self.old }
    {
        self.kept.release_all();
    }
}
