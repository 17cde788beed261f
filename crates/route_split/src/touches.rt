//! The touch states of all devices.
ghost use Rattle.std.specs.Prelude.{◌≡◌, ◌==◌, ◌&&◌, ℕ, [], ◌∷◌, false, true, IfOk, IfSome, option_map};
ghost use Rattle.std.specs.List.{list_any};
ghost use Rattle.bits32.specs.Set.{is_in};
ghost use Rattle.window_snapshot.specs.Mask.{is_channel, mask_has};
ghost use Rattle.routing_rules.specs.Choice.{choice_at, targets_at};
ghost use Rattle.routing_rules.specs.Taking.{takes, pilfers};
ghost use Rattle.routing_rules.specs.Scene.{Scene, Moves};
ghost use Rattle.routing_rules.specs.Given.{changed, mark as rule_mark};
ghost use Rattle.routing_rules.specs.Outgoing.{after, listing, plain, outgoing};
ghost use Rattle.input_types.specs.declared.motion.MotionAction.TheVariants.{Move};
ghost use Rattle.routing_rules.specs.Slip.{slip};
ghost use Rattle.route_split.specs.Seen.{Sees};
ghost use Rattle.route_split.specs.Slipping.{rule_slip};
ghost use Rattle.route_split.specs.Sending.{IsSent, IsListed};
ghost use Rattle.routing_rules.specs.Watching.{is_watching};
ghost use Rattle.route_split.specs.Tables.{table_of, any_at, holds_at, pilfering_at, Stands, IsFresh, ChangesAll};
ghost use Rattle.route_split.specs.declared.mark.Mark.TheVariants.{NoOp};
ghost use Rattle.route_split.specs.Marking.{gives, taking, is_pilfer, IsWhole, IsMark, AreLosses, may_be_sent};

use crate::choice::{choice_at, targets};
use crate::concern::given_windows;
use crate::holding::holding;
use crate::mark::Mark;
use crate::marking::{change_by, change_plain, fresh_states, index_of};
use crate::motion::mark_of;
use crate::seen::Seen;
use crate::sending::{moving_of, sends_of};
use crate::sends::Sends;
use crate::slip::{Way, slip_of};
use bits32::Bits32;
use input_types::{DeviceId, Motion, Pixel, PointerId};
use pilfer_monitor::Losses;
use routing_rules::Choice;
use std::alloc::{AllocError, Global};
use std::marker::Model;
use touch_state::TouchState;
use window_snapshot::{Reach, Snapshot};

/// Which of the windows 1 to 64 hold which pointers of the devices 1 to 8, since when, and which of them are pilfering
/// which device.
#[derive(Drop)]
pub struct Touches {
    /// The state of each device, starting with device 1.
    states: Vec<TouchState>,
}

impl Model for Touches {
    ghost use Rattle.std.specs.Prelude.{List};
    ghost use Rattle.touch_state.specs.Touches.{Touches as Table};
    ghost use Rattle.route_split.specs.Tables.{IsTables};

    ghost Value = { List Table };

    ghost view = { λ t. t.states.items };

    ghost invariant = { λ t. IsTables t.states.items };
}

impl Touches {
    /// Tables in which no window holds anything.
    pub fn new(alloc: Global) -> Result<Touches, AllocError>
        ensures { IfOk result (λ t. (d : ℕ) → IsFresh (table_of t d)) }
    {
        let states = fresh_states(alloc)?;
        Ok(Touches { states })
    }

    /// The ids of the pointers of a device that a window holds.
    pub fn held(&self, window: u32, device: DeviceId) -> Bits32
        requires { is_channel window ≡ true }
        ensures { (i : ℕ) → is_in i result ≡ holds_at self.now window device i }
    {
        self.states[index_of(device)].held(window)
    }

    /// The mask of the windows that hold something of a device.
    pub fn holders(&self, device: DeviceId) -> u64
        ensures { (w : ℕ) → mask_has result w ≡ any_at self.now w device }
    {
        self.states[index_of(device)].holders()
    }

    /// The mask of the windows that are pilfering a device.
    pub fn pilfering(&self, device: DeviceId) -> u64
        ensures { (w : ℕ) → mask_has result w ≡ pilfering_at self.now w device }
    {
        self.states[index_of(device)].pilfering()
    }

    /// The mark of a motion: which windows get a pointer that goes down, which lose one that goes up, and between
    /// which windows one slips. `reach` says which windows the device can reach, and `able` which channels can take
    /// input.
    pub fn mark_of(&self, motion: &Motion, windows: &Snapshot, reach: &Reach, able: u64) -> Mark
        ensures mark { (s : Scene) → Stands s self.now → Sees s windows.now reach.now able motion.now.device
            → IsMark self.now result (rule_mark s (Moves motion.now)) }
        ensures whole { IsWhole result }
    {
        let seen = Seen {
            windows,
            reach,
            able,
            table: &self.states[index_of(motion.device)],
        };
        mark_of(&seen, motion)
    }

    /// The window that is chosen for a pointer of a device that goes down at a position, and the row of the table
    /// that chose it. `reach` says which windows the device can reach, and `able` which channels can take
    /// input.
    pub fn choice(
        &self,
        device: DeviceId,
        at: Pixel,
        windows: &Snapshot,
        reach: &Reach,
        able: u64,
    ) -> Choice
        ensures { (s : Scene) → Stands s self.now → Sees s windows.now reach.now able device
            → result ≡ choice_at s device at }
    {
        let seen = Seen {
            windows,
            reach,
            able,
            table: &self.states[index_of(device)],
        };
        choice_at(&seen, device, at)
    }

    /// The mask of the targets of a pointer of a device that goes down at a position, able or not. `reach` says
    /// which windows the device can reach, and `able` which channels can take input.
    pub fn targets(
        &self,
        device: DeviceId,
        at: Pixel,
        windows: &Snapshot,
        reach: &Reach,
        able: u64,
    ) -> u64
        ensures { (s : Scene) → Stands s self.now → Sees s windows.now reach.now able device → (w : ℕ)
            → mask_has result w ≡ (is_channel w && list_any (λ v. v == w) (targets_at s device at)) }
    {
        let seen = Seen {
            windows,
            reach,
            able,
            table: &self.states[index_of(device)],
        };
        targets(&seen, device, at)
    }

    /// The window from which the pointer of a motion slips, and the one to which it slips; None exactly if it does
    /// not slip. `reach` says which windows the device can reach, and `able` which channels can take input.
    pub fn slip(&self, motion: &Motion, windows: &Snapshot, reach: &Reach, able: u64) -> Option<Way>
        ensures { (s : Scene) → Stands s self.now → Sees s windows.now reach.now able motion.now.device
            → option_map rule_slip result ≡ slip s motion.now }
    {
        let seen = Seen {
            windows,
            reach,
            able,
            table: &self.states[index_of(motion.device)],
        };
        slip_of(&seen, motion)
    }

    /// The mask of the windows that hold a pointer of a device.
    pub fn holding(&self, device: DeviceId, id: PointerId) -> u64
        ensures { (w : ℕ) → mask_has result w ≡ holds_at self.now w device id }
    {
        holding(&self.states[index_of(device)], id)
    }

    /// The mask of the windows that may be sent something for a device at the step of a mark: those that hold
    /// something of it, and those that are given something. At a motion, its `watchers` may be sent something too.
    pub fn concerned(&self, mark: &Mark, device: DeviceId) -> u64
        ensures { (w : ℕ) → mask_has result w ≡ may_be_sent self.now mark.now w device }
    {
        self.holders(device) | given_windows(mark, device)
    }

    /// What a window is sent for a motion, once the tables have changed by its mark. `before` are the ids that it
    /// held of the motion's device before, and `watches` says whether the window is one of the motion's `watchers`.
    /// The last motion of the device must list what windows held.
    pub fn sends(&self, motion: &Motion, window: u32, before: Bits32, watches: bool) -> Sends
        requires { is_channel window ≡ true }
        ensures { (s : Scene)
            → ((i : ℕ) → s.holds window motion.now.device i ≡ is_in i before)
            → ((i : ℕ) → after s (rule_mark s (Moves motion.now)) window motion.now.device i
            ≡ holds_at self.now window motion.now.device i)
            → IsListed s motion.now.device
            → watches ≡ is_watching s motion.now (changed motion.now) window
            → IsSent result (outgoing s (Moves motion.now) window motion.now.device) motion.now.device
            (s.last motion.now.device) (s.holds window motion.now.device) }
    {
        let later = self.held(window, motion.device);
        sends_of(motion, before, later, watches)
    }

    /// The ids that move in a window, if that is all that it is sent for the motion: it held exactly these before the
    /// step, and still holds them. None says nothing about what it is sent.
    #[inline(always)]
    pub fn moving(&self, motion: &Motion, window: u32, before: Bits32) -> Option<Bits32>
        requires { is_channel window ≡ true }
        ensures { IfSome result (λ ids. (s : Scene)
            → ((i : ℕ) → s.holds window motion.now.device i ≡ is_in i before)
            → ((i : ℕ) → after s (rule_mark s (Moves motion.now)) window motion.now.device i
            ≡ holds_at self.now window motion.now.device i)
            → outgoing s (Moves motion.now) window motion.now.device
            ≡ plain motion.now.device Move (listing (λ i. is_in i ids) motion.now.pointers) ∷ []) }
    {
        moving_of(motion, before, self.held(window, motion.device))
    }

    /// Changes the tables by the mark of a step, at an index, which is the number of steps before it. Returns what
    /// each window lost, if one that holds something pilfers.
    #[inline(always)]
    pub fn change(&mut self, mark: &Mark, place: u64) -> Option<Losses>
        requires { IsWhole mark.now }
        ensures changes { ChangesAll self.old self.new (gives mark.now) (takes (taking self.old mark.now)) place
            (pilfers (taking self.old mark.now)) }
        ensures losses { IfSome result (AreLosses self.old mark.now) }
    {
        change_by(&mut self.states, mark, place)
    }

    /// The same for a mark in which no window pilfers, so that no list of losses is made.
    #[inline(always)]
    pub fn change_plain(&mut self, mark: &Mark, place: u64)
        requires whole { IsWhole mark.now }
        requires plain { is_pilfer mark.now ≡ false }
        ensures { ChangesAll self.old self.new (gives mark.now) (takes (taking self.old mark.now)) place
            (pilfers (taking self.old mark.now)) }
    {
        change_plain(&mut self.states, mark, place);
    }

    /// A step that gives and takes nothing leaves the tables as they are. This function does nothing, and its clause
    /// says so.
    #[inline(always)]
    pub fn rest(&self)
        ensures { (place : ℕ) → ChangesAll self.now self.now (gives NoOp) (takes (taking self.now NoOp)) place
            (pilfers (taking self.now NoOp)) }
    {
        // Read only for its clause: the invariant of the tables is not visible before.
        let _count = self.states.len();
    }
}
