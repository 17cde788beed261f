//! Creating and freeing a live service, and its clients that come and go.
ghost use Rattle.std.specs.Prelude.{IfOk};
ghost use Rattle.plain_calls.specs.Repeats.{terms_of};
ghost use Rattle.plain_calls.specs.Screens.{displays_of};
ghost use Rattle.inputflinger_c.specs.Serving.{IsNewService, LiveFrees, LiveOpens};

use crate::service::Service;
use dispatch_calls::Terms;
use input_types::Displays;
use live_input::Limited;
use plain_calls::status::{FREE, MEMORY, OK, RANGE, TAKEN};
use plain_calls::{PlainDisplays, PlainRepeats, terms_of};
use std::alloc::{AllocError, Global};

/// Puts a service without clients into a free handle, with its devices on these displays, this limit for messages that
/// a client leaves unfinished, and these repeats of held keys. `TAKEN` if the handle is not free, `RANGE` if a number
/// is out of its range, and `MEMORY` if memory runs out; the handle then stays as it was.
#[unsafe(no_mangle)]
pub extern "C" fn inputflinger_proved_live_new(
    alloc: Global,
    live: &mut Service,
    limit_us: u64,
    repeats: &PlainRepeats,
    displays: &PlainDisplays,
) -> u32
    ensures { LiveOpens live.old.cell.state (terms_of limit_us repeats.now) (displays_of displays.now) result
        live.new.cell.state }
{
    if live.is_open() {
        return TAKEN;
    }
    let Some(terms) = terms_of(limit_us, repeats) else {
        return RANGE;
    };
    let Some(displays) = displays.read() else {
        return RANGE;
    };
    match boxed(alloc, terms, &displays) {
        Ok(made) => {
            live.put(made);
            OK
        }
        Err(_) => MEMORY,
    }
}

/// A new service in a block of its own. It is not inlined: in a caller that has just read the displays, LLVM 22 set up
/// the large frame of a service with a register that held one of them.
#[inline(never)]
fn boxed(alloc: Global, terms: Terms, displays: &Displays) -> Result<Box<Limited>, AllocError>
    ensures { IfOk result (λ b. IsNewService terms displays.now b.value) }
{
    let live = Limited::new(alloc, terms, displays)?;
    Ok(Box::new(alloc, live)?)
}

/// Frees a handle and the memory of its service. `FREE` if it was free before.
#[unsafe(no_mangle)]
pub extern "C" fn inputflinger_proved_live_free(alloc: Global, live: &mut Service) -> u32
    ensures { LiveFrees live.old.cell.state result live.new.cell.state }
{
    match live.take(alloc) {
        Some(_) => OK,
        None => FREE,
    }
}
