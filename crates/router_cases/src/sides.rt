//! Both routers through the same turns.

use crate::scenery::{Scenery, first_windows, second_windows};
use crate::split_side::SplitSide;
use bits32::Bits32;
use input_types::DeviceId;
use route_plain::{Plain, Said};
use std::alloc::Global;
use std::test::Fail;
use window_snapshot::Snapshot;

/// Both routers, two snapshots, and the actions that were sent so far.
#[derive(Drop)]
struct Sides {
    plain: Plain,
    split: SplitSide,
    first: Snapshot,
    second: Snapshot,
    actions: Bits32,
}

impl Sides {
    fn new(alloc: Global) -> Result<Sides, Fail> {
        Ok(Sides {
            plain: Plain::new(alloc),
            split: SplitSide::new(alloc)?,
            first: first_windows(alloc)?,
            second: second_windows(alloc)?,
            actions: Bits32::empty(),
        })
    }

    /// Takes the turn with this number on both sides. Returns whether they send and hold the same.
    fn turn(&mut self, scenery: &mut Scenery, number: u64) -> Result<bool, Fail> {
        let turn = scenery.next()?;
        let windows = shown(&self.first, &self.second, scenery.shows_second);
        let said = self.plain.turn(&turn, windows, scenery.live, scenery.able)?;
        let outgoing = self
            .split
            .turn(&turn, windows, (scenery.live, scenery.able), number)?;
        note(&mut self.actions, said.as_slice());
        Ok(said.as_slice() == outgoing.as_slice() && self.hold_same()?)
    }

    /// Whether each window holds the same of each device.
    fn hold_same(&self) -> Result<bool, Fail> {
        for number in 1..9 {
            let device = DeviceId::new(number).ok_or("a device")?;
            for channel in 1..65 {
                if self.plain.holds(channel, device) != self.split.holds(channel, device) {
                    return Ok(false);
                }
            }
        }
        Ok(true)
    }
}

/// The snapshot that is shown.
fn shown<'a>(first: &'a Snapshot, second: &'a Snapshot, is_second: bool) -> &'a Snapshot {
    if is_second { second } else { first }
}

/// Notes the actions that are sent.
fn note(actions: &mut Bits32, said: &[Said]) {
    for one in said {
        actions.mark(one.motion.action.number());
    }
}

/// Takes this many turns, which the seed makes. Returns the number of the first one at which the routers differ, and
/// the actions that were sent, as bits.
pub(crate) fn run(alloc: Global, seed: u32, turns: u64) -> Result<(Option<u64>, u32), Fail> {
    let mut scenery = Scenery::new(seed)?;
    let mut sides = Sides::new(alloc)?;
    for number in 0..turns {
        if !sides.turn(&mut scenery, number)? {
            return Ok((Some(number), sides.actions.bits()));
        }
    }
    Ok((None, sides.actions.bits()))
}
