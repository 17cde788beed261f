//! A cursor with the steps of a session and the motions of a mouse, in rising time.
ghost use Rattle.std.specs.Prelude.{◌≡◌, ◌∷◌, ◌++◌, ℕ, List, [], reverse, take, IfOk, OnErr, OnOk};
ghost use Rattle.raw_events.specs.declared.event.RawEvent.{RawEvent as Event};
ghost use Rattle.session_plan.specs.Valid.{IsPlan};
ghost use Rattle.session_plan.specs.View.{plan_view};
ghost use Rattle.hover_text.specs.Running.{RunStandsFor, Stopped};
ghost use Rattle.hover_text.specs.Screen.{screen_of};
ghost use Rattle.hover_text.specs.State.{IsWhole};
ghost use Rattle.hover_text.specs.Text.{hovered_text};
ghost use Rattle.cursor_core.specs.Cursor.{CursorStandsFor};

use crate::screen::{height_of, width_of};
use crate::text::add_sections;
use cursor_core::{Cursor, MotionReader};
use raw_events::RawEvent;
use session_plan::Plan;
use std::alloc::{AllocError, Global};
use std::marker::Model;

/// A run of a session, to which the events of the mouse come one by one.
///
/// It keeps no list of them. Clauses say for which events it stands, as far as the text needs. A call that runs out
/// of memory ends the run: the cursor then has the earlier events, with some further steps, and the motion is lost.
#[derive(Drop)]
pub struct Hover {
    pub(crate) cursor: Cursor,
    reader: MotionReader,
    /// How many steps were made.
    pub(crate) next: usize,
}

impl Model for Hover {
    ghost use Rattle.hover_text.specs.State.{HoverState, IsWhole};

    ghost Value = { HoverState };

    ghost view = { λ h. record { cursor = h.cursor; reader = h.reader; next = h.next } };

    ghost invariant = { λ h. IsWhole h.cursor };
}

/// A cursor in the middle of display 0, with the channels of the session.
fn first_cursor(alloc: Global, plan: &Plan) -> Result<Cursor, AllocError>
    requires { IsPlan plan.now }
    ensures start { IfOk result (CursorStandsFor (screen_of (plan_view plan.now)) []) }
    ensures whole { IfOk result IsWhole }
{
    let display = &plan.displays[0];
    Cursor::new(
        alloc,
        width_of(display),
        height_of(display),
        plan.channels.len() as u32,
    )
}

impl Hover {
    /// A run before the first event.
    pub fn new(alloc: Global, plan: &Plan) -> Result<Hover, AllocError>
        requires { IsPlan plan.now }
        ensures { IfOk result (RunStandsFor (plan_view plan.now) []) }
    {
        let cursor = first_cursor(alloc, plan)?;
        Ok(Hover {
            cursor,
            reader: MotionReader::new(),
            next: 0,
        })
    }

    /// Takes the mouse's next event.
    pub fn take(&mut self, plan: &Plan, event: &RawEvent) -> Result<(), AllocError>
        requires { IsPlan plan.now }
        ensures ok { (past : List Event) → RunStandsFor (plan_view plan.now) past self.old
            → OnOk result (RunStandsFor (plan_view plan.now) (event.now ∷ past) self.new) }
        ensures err { (past : List Event) → RunStandsFor (plan_view plan.now) past self.old
            → OnErr result (Stopped (plan_view plan.now) past self.new) }
    {
        match self.reader.take(event) {
            Some(motion) => self.run_to(&plan.steps, motion),
            None => Ok(()),
        }
    }

    /// Takes the mouse's next events.
    pub fn take_all(&mut self, plan: &Plan, events: &[RawEvent]) -> Result<(), AllocError>
        requires { IsPlan plan.now }
        ensures ok { (past : List Event) → RunStandsFor (plan_view plan.now) past self.old
            → OnOk result (RunStandsFor (plan_view plan.now) (reverse events.now ++ past) self.new) }
        ensures err { (past : List Event) → RunStandsFor (plan_view plan.now) past self.old
            → OnErr result ((n : ℕ) × Stopped (plan_view plan.now) (reverse (take n events.now) ++ past) self.new) }
    {
        for event in events {
            self.take(plan, event)?;
        }
        Ok(())
    }

    /// Ends the run: makes the remaining steps, and returns the text, a section for each channel of the session.
    pub fn end(mut self, alloc: Global, plan: &Plan) -> Result<Vec<u8>, AllocError>
        requires { IsPlan plan.now }
        ensures { (past : List Event) → RunStandsFor (plan_view plan.now) past self
            → IfOk result (λ text. text.items ≡ hovered_text (plan_view plan.now) past) }
    {
        self.make_rest(&plan.steps)?;
        let mut text = Vec::new(alloc);
        add_sections(&mut text, &plan.channels, &self.cursor)?;
        Ok(text)
    }
}
