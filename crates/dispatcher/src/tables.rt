//! All that a dispatcher keeps.
ghost use Rattle.std.specs.Prelude.{◌≡◌, [], IfOk};
ghost use Rattle.dispatcher.specs.Tables.{TablesStandFor};

use crate::cancelled::Cancelled;
use crate::dispatch_channels::Channels;
use crate::queueing::Queueing;
use crate::shown::Shown;
use crate::window_covers::Covers;
use focus_resolver::Focus;
use input_types::Displays;
use key_repeat::Repeat;
use route_split::Touches;
use std::alloc::{AllocError, Global};

/// What the windows were sent, and everything that decides what they are sent next.
#[derive(Drop)]
pub(crate) struct Routing {
    pub(crate) displays: Displays,
    pub(crate) shown: Shown,
    pub(crate) touches: Touches,
    /// What lay over each window when it was given pointers.
    pub(crate) covers: Covers,
    pub(crate) channels: Channels,
    pub(crate) focus: Focus,
    pub(crate) repeat: Repeat,
    pub(crate) cancelled: Cancelled,
}

/// What the next answers need, table by table.
#[derive(Drop)]
pub(crate) struct Tables {
    pub(crate) queueing: Queueing,
    pub(crate) routing: Routing,
}

impl Tables {
    /// Before the first step.
    pub(crate) fn new(alloc: Global, displays: &Displays) -> Result<Tables, AllocError>
        ensures start { IfOk result (λ t. TablesStandFor [] t) }
        ensures displays { IfOk result (λ t. t.routing.displays ≡ displays.now) }
        ensures pumps { IfOk result (λ t. t.queueing.pumps ≡ 0) }
    {
        let queueing = Queueing::new(alloc)?;
        let touches = Touches::new(alloc)?;
        let routing = Routing {
            displays: *displays,
            shown: Shown::new(alloc),
            touches,
            covers: Covers::new(),
            channels: Channels::new(alloc),
            focus: Focus::new(),
            repeat: Repeat::new(),
            cancelled: Cancelled::new(alloc),
        };
        Ok(Tables { queueing, routing })
    }
}
