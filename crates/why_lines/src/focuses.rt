//! Changes of the focus.
ghost use Rattle.std.specs.Prelude.{◌≡◌, ◌≤◌, ◌++◌, List, codes, decimal, IfOk};
ghost use Rattle.dispatch_history.specs.Effect.{Effect, past_of};
ghost use Rattle.dispatch_history.specs.Focus.{focus};
ghost use Rattle.dispatch_history.specs.History.{History};
ghost use Rattle.dispatcher.specs.Dispatching.{IsAfter};
ghost use Rattle.why_text.specs.Text.{change_words, focus_words};
ghost use Rattle.why_lines.specs.Focusing.{AreFocuses};
ghost use Rattle.why_lines.specs.Growing.{with_lines};

use dispatcher::Dispatcher;
use input_types::{DisplayId, Moment};
use std::alloc::AllocError;

/// The window that has the focus of each display, and the window that keys go to, if any.
#[derive(Clone, Copy)]
pub struct Focuses {
    first: Option<u32>,
    second: Option<u32>,
    third: Option<u32>,
    fourth: Option<u32>,
    target: Option<u32>,
}

/// The window that has the focus of a display.
fn focused(dispatcher: &Dispatcher, display: u8) -> Option<u32>
    requires { display ≤ 3 }
    ensures { (es : List Effect) → IsAfter es dispatcher.now → result ≡ focus (past_of es) display }
{
    let Some(display) = DisplayId::new(display) else {
        return None;
    };
    dispatcher.focused(display)
}

/// Which windows have the focus.
pub fn all_focused(dispatcher: &Dispatcher) -> Focuses
    ensures { (es : List Effect) → IsAfter es dispatcher.now → AreFocuses (past_of es) result }
{
    Focuses {
        first: focused(dispatcher, 0),
        second: focused(dispatcher, 1),
        third: focused(dispatcher, 2),
        fourth: focused(dispatcher, 3),
        target: dispatcher.target(),
    }
}

/// Adds the line of a change of the focus of a display, if it changes.
fn add_change(
    text: &mut Vec<u8>,
    clock: Moment,
    display: u8,
    before: Option<u32>,
    after: Option<u32>,
) -> Result<(), AllocError>
    requires { display ≤ 3 }
    ensures { IfOk result (λ _. text.new.items
        ≡ with_lines clock (change_words (codes "focus " ++ decimal display ++ codes " ") before after)
        text.old.items) }
{
    let Some(display) = DisplayId::new(display) else {
        return Ok(());
    };
    crate::lines::focus(text, clock, display, before, after)
}

/// Adds the lines of the changes of the focus, and of the window that keys go to, between two times.
pub fn add_changes(
    text: &mut Vec<u8>,
    clock: Moment,
    before: &Focuses,
    after: &Focuses,
) -> Result<(), AllocError>
    ensures { (h k : History) → AreFocuses h before.now → AreFocuses k after.now
        → IfOk result (λ _. text.new.items ≡ with_lines clock (focus_words h k) text.old.items) }
{
    add_change(text, clock, 0, before.first, after.first)?;
    add_change(text, clock, 1, before.second, after.second)?;
    add_change(text, clock, 2, before.third, after.third)?;
    add_change(text, clock, 3, before.fourth, after.fourth)?;
    crate::lines::target(text, clock, before.target, after.target)
}
