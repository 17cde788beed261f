//! What can be asked about where input goes: the args that wait, the windows, the channels that can have input, the
//! focus, and the key to repeat.
ghost use Rattle.std.specs.Prelude.{◌≡◌, ℕ, List, option_map, slice_get};
ghost use Rattle.std.specs.Option.{option_copied};
ghost use Rattle.window_snapshot.specs.Mask.{mask_has};
ghost use Rattle.window_snapshot.specs.Walls.{reaches};
ghost use Rattle.key_repeat.specs.Due.{next_of};
ghost use Rattle.dispatch_history.specs.Delivery.{able};
ghost use Rattle.dispatch_history.specs.Effect.{Effect, past_of};
ghost use Rattle.dispatch_history.specs.Focus.{focus, key_target};
ghost use Rattle.dispatch_history.specs.History.{clock, snapshot};
ghost use Rattle.dispatch_history.specs.KeySent.{last_key, while_held};
ghost use Rattle.dispatch_history.specs.Queue.{inbound};
ghost use Rattle.dispatch_history.specs.Step.{reach};
ghost use Rattle.dispatcher.specs.Dispatching.{IsAfter};

use crate::dispatcher::Dispatcher;
use input_types::{Args, DeviceId, DisplayId, Displays, KeyMsg, Moment};
use window_snapshot::{Reach, Snapshot};

impl Dispatcher {
    /// The args that are dispatched next; None exactly if none wait.
    pub fn first(&self) -> Option<&Args>
        ensures { (es : List Effect) → IsAfter es self.now
            → option_copied result ≡ slice_get (inbound (past_of es)) 0 }
    {
        self.tables.queueing.first()
    }

    /// The windows of the last snapshot; none before the first one.
    pub fn windows(&self) -> &Snapshot
        ensures { (es : List Effect) → IsAfter es self.now → result.now ≡ snapshot (past_of es) }
    {
        self.tables.routing.shown.windows()
    }

    /// What a motion of a device can reach: the channels that are live and have a window on its display, and the walls
    /// of that display.
    pub fn reach(&self, device: DeviceId) -> Reach
        ensures { (es : List Effect) → IsAfter es self.now → (c : ℕ)
            → reaches result c ≡ reach self.now.displays es device c }
    {
        let routing = &self.tables.routing;
        let display = routing.displays.of(device);
        Reach {
            channels: routing.channels.live() & routing.shown.windows().on(display),
            display,
        }
    }

    /// The mask of the channels that are able to take input: live, and not unresponsive.
    pub fn able(&self) -> u64
        ensures { (es : List Effect) → IsAfter es self.now → (c : ℕ) → mask_has result c ≡ able es c }
    {
        self.tables.routing.channels.able()
    }

    /// The channel whose window has the focus of a display, if there is one.
    pub fn focused(&self, display: DisplayId) -> Option<u32>
        ensures { (es : List Effect) → IsAfter es self.now → result ≡ focus (past_of es) display }
    {
        // Read only for its clause: a display has one of the numbers 0 to 3.
        let _number = display.get();
        self.tables.routing.focus.current(display)
    }

    /// The channel whose window keys go to, if there is one.
    pub fn target(&self) -> Option<u32>
        ensures { (es : List Effect) → IsAfter es self.now → result ≡ key_target (past_of es) }
    {
        self.tables.routing.focus.target()
    }

    /// The channel of the next repeat, and the repeat of its last key message. None exactly if its window no longer
    /// holds the key, or the message is not repeated.
    pub fn repeat(&self) -> Option<(u32, KeyMsg)>
        ensures { (es : List Effect) → IsAfter es self.now
            → option_map (λ n. (n.0, n.1)) result ≡ next_of (while_held es (last_key es)) }
    {
        self.tables.routing.repeat.next()
    }

    /// The latest time that was handed in.
    pub fn clock(&self) -> Moment
        ensures { (es : List Effect) → IsAfter es self.now → result ≡ clock (past_of es) }
    {
        self.tables.queueing.clock()
    }

    /// The displays of the devices.
    pub fn displays(&self) -> &Displays
        ensures { result.now ≡ self.now.displays }
    {
        &self.tables.routing.displays
    }
}
