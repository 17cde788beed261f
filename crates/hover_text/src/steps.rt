//! The steps of a session, for a cursor.
ghost use Rattle.std.specs.Prelude.{◌≡◌, ◌≤◌, ◌<◌, ◌+◌, ◌-◌, ◌^◌, ℕ, List, ◌++◌, length, option_map, slice_get, IsSome, None, OnErr, OnOk};
ghost use Rattle.std.specs.List.Sorted.{IsNonDecreasingBy};
ghost use Rattle.cursor_core.specs.declared.call.CursorCall.{CursorCall as Call};
ghost use Rattle.cursor_core.specs.Calls.{Screen, moment_of};
ghost use Rattle.cursor_core.specs.Cursor.{CursorStandsFor};
ghost use Rattle.cursor_core.specs.Kept.{gone};
ghost use Rattle.hover_text.specs.Running.{HasMade, due_of};
ghost use Rattle.hover_text.specs.Schedule.{act_calls, placed};

use crate::hover::Hover;
use cursor_core::{Cursor, CursorCall};
use input_types::Moment;
use session_plan::{Act, Step};
use std::alloc::AllocError;

/// Makes a step at a time, if it shows windows or removes a channel.
fn act_on(cursor: &mut Cursor, now: Moment, act: &Act) -> Result<(), AllocError>
    ensures ok { (d : Screen) (calls : List Call) → CursorStandsFor d calls cursor.old
        → OnOk result (CursorStandsFor d (act_calls now act.now ++ calls) cursor.new) }
    ensures gone { (c : ℕ) → gone cursor.new c ≡ gone cursor.old c }
    ensures err { OnErr result (cursor.new ≡ cursor.old) }
{
    match act {
        Act::Windows(snapshot) => {
            let snapshot = snapshot.copy()?;
            cursor.apply(CursorCall::Windows { now, snapshot })
        }
        Act::Remove { channel } => cursor.apply(CursorCall::Remove {
            now,
            channel: *channel,
        }),
        Act::FocusOn { .. } | Act::Pilfer { .. } => Ok(()),
    }
}

impl Hover {
    /// Makes the next step.
    fn make(&mut self, step: &Step) -> Result<(), AllocError>
        requires { self.old.next < 2 ^ 64 - 1 }
        ensures cursor { (d : Screen) (calls : List Call) → CursorStandsFor d calls self.old.cursor
            → OnOk result (CursorStandsFor d (act_calls step.now.at step.now.act ++ calls) self.new.cursor) }
        ensures next { OnOk result (self.new.next ≡ self.old.next + 1) }
        ensures reader { self.new.reader ≡ self.old.reader }
        ensures err { OnErr result (self.new ≡ self.old) }
    {
        act_on(&mut self.cursor, step.at, &step.act)?;
        self.next += 1;
        Ok(())
    }

    /// The next step, if one is left.
    fn next_of<'a>(&self, steps: &'a [Step]) -> Option<&'a Step>
        ensures value { option_map (λ s. s.now) result ≡ slice_get steps.now self.now.next }
        ensures within { IsSome result → self.now.next < length steps.now }
    {
        steps.get(self.next)
    }

    /// The next step, if it is not later than a time.
    fn due<'a>(&self, steps: &'a [Step], moment: Moment) -> Option<&'a Step>
        ensures value { option_map (λ s. s.now) result ≡ due_of moment (slice_get steps.now self.now.next) }
        ensures within { IsSome result → self.now.next < length steps.now }
    {
        let step = self.next_of(steps)?;
        if step.at.get() <= moment.get() {
            Some(step)
        } else {
            None
        }
    }

    /// Makes the steps up to a time, or as many of them as memory allows.
    fn steps_up_to(&mut self, steps: &[Step], moment: Moment) -> Result<(), AllocError>
        ensures made { (d : Screen) (all : List Call) (t : ℕ) → HasMade d steps.now all t self.old → t ≤ moment
            → HasMade d steps.now all moment self.new }
        ensures left { OnOk result (due_of moment (slice_get steps.now self.new.next) ≡ None) }
        ensures reader { self.new.reader ≡ self.old.reader }
    {
        'steps: while let Some(step) = self.due(steps, moment) {
            self.make(step)?;
        }
        Ok(())
    }

    /// Makes the steps up to the time of a motion, and then takes the motion.
    pub(crate) fn run_to(&mut self, steps: &[Step], motion: CursorCall) -> Result<(), AllocError>
        ensures made { (d : Screen) (all : List Call) (t : ℕ) → HasMade d steps.now all t self.old
            → t ≤ moment_of motion → IsNonDecreasingBy (λ s. s.at) steps.now
            → OnOk result (HasMade d steps.now (placed motion all) (moment_of motion) self.new) }
        ensures err { (d : Screen) (all : List Call) (t : ℕ) → HasMade d steps.now all t self.old
            → t ≤ moment_of motion → OnErr result (HasMade d steps.now all (moment_of motion) self.new) }
        ensures reader { self.new.reader ≡ self.old.reader }
    {
        self.steps_up_to(steps, motion.moment())?;
        self.cursor.apply(motion)
    }

    /// Makes the remaining steps.
    pub(crate) fn make_rest(&mut self, steps: &[Step]) -> Result<(), AllocError>
        ensures { (d : Screen) (all : List Call) (t : ℕ) → HasMade d steps.now all t self.old
            → OnOk result (CursorStandsFor d all self.new.cursor) }
    {
        'steps: while let Some(step) = self.next_of(steps) {
            self.make(step)?;
        }
        Ok(())
    }
}
