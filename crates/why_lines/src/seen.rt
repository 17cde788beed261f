//! What the rules see before a step.
ghost use Rattle.std.specs.Prelude.{List};
ghost use Rattle.dispatch_history.specs.Effect.{Effect};
ghost use Rattle.dispatch_history.specs.Step.{scene};
ghost use Rattle.dispatcher.specs.Dispatching.{IsAfter};
ghost use Rattle.why_lines.specs.Causes.{IsSeen};

use crate::sight::Sight;
use dispatcher::Dispatcher;
use input_types::DeviceId;

/// What the rules see before a motion of a device.
pub(crate) fn sight(dispatcher: &Dispatcher, device: DeviceId) -> Sight<'_>
    ensures { (es : List Effect) → IsAfter es dispatcher.now
        → IsSeen (scene dispatcher.now.displays es) device result }
{
    Sight {
        touches: dispatcher.touches(),
        windows: dispatcher.windows(),
        reach: dispatcher.reach(device),
        able: dispatcher.able(),
    }
}
