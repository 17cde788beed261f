//! Moves that bypass the channels, and what their messages are made from.
ghost use Rattle.std.specs.Prelude.{◌≡◌, true, None, List, IfOk, IfSome, OnErr};
ghost use Rattle.window_snapshot.specs.Mask.{is_channel};
ghost use Rattle.dispatch_history.specs.Effect.{Effect, past_of};
ghost use Rattle.dispatch_history.specs.History.{origin};
ghost use Rattle.dispatcher.specs.Dispatching.{IsAfter};
ghost use Rattle.dispatcher.specs.MovedOn.{MovesOn};

use super::Dispatcher;
use super::inputs::rises;
use crate::motions::is_move;
use crate::past::move_at_once;
use input_types::{Args, Moment, Pixel};
use std::alloc::AllocError;

impl Dispatcher {
    /// Takes a Move and dispatches it, as [`dispatch`](Dispatcher::dispatch) does, but makes no messages: they count as
    /// released. Returns the mask of the channels that were sent one. A reader makes a channel's message from
    /// [`counts`](Dispatcher::counts), whose `sent` is its number, and from [`clock`](Dispatcher::clock),
    /// [`input`](Dispatcher::input), [`covers`](Dispatcher::covers) and [`origin`](Dispatcher::origin).
    ///
    /// Returns `None`, and changes nothing, if the args are no Move, have to wait or may not come, if a window is
    /// slippery, or if a window that holds pointers of the device keeps a message. If memory runs out, nothing changes.
    #[inline(always)]
    pub fn move_past(&mut self, now: Moment, args: &Args) -> Result<Option<u64>, AllocError>
        ensures past { IfOk result (λ found. IfSome found (λ sent. MovesOn now args.now sent self.old self.new)) }
        ensures none { IfOk result (λ found. found ≡ None → self.new ≡ self.old) }
        ensures err { OnErr result (self.new ≡ self.old) }
    {
        let Args::Motion(motion) = args else {
            return Ok(None);
        };
        if !is_move(motion.action) {
            return Ok(None);
        }
        self.tables.queueing.may_step_twice()?;
        if self.tables.queueing.first().is_some() {
            return Ok(None);
        }
        rises(now, args);
        match self.tables.queueing.plan(args) {
            Ok(change) => move_at_once(&mut self.tables, now, motion, &change),
            Err(_) => Ok(None),
        }
    }

    /// Where the window of a channel stood in the last snapshot that lists it.
    pub fn origin(&self, channel: u32) -> Pixel
        requires { is_channel channel ≡ true }
        ensures { (es : List Effect) → IsAfter es self.now → result ≡ origin (past_of es) channel }
    {
        self.tables.routing.shown.origins()[channel as usize - 1]
    }
}
