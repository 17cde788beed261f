//! The batcher.
ghost use Rattle.std.specs.Prelude.{◌≡◌, ◌++◌, List, [], ◌∷◌, length, take, OnOk, OnErr};
ghost use Rattle.motion_batch.specs.Batched.{IsBatched, IsFlushed};
ghost use Rattle.motion_batch.specs.Calls.{Call, RowsStandFor, added, due_of_rows, flushed, framed, rows_left, taken};

use crate::item::Item;
use crate::pending::Pending;
use input_types::{Body, DeviceId, Message, Moment};
use std::alloc::{AllocError, Global};
use std::marker::Model;

/// The waiting moves of each device. Contracts see them as a list of eight lists of samples, starting with device 1.
#[derive(Drop)]
pub struct Batcher {
    pending: [Pending; 8],
    alloc: Global,
}

impl Model for Batcher {
    ghost use Rattle.std.specs.Prelude.{List, ◌≡◌, length};
    ghost use Rattle.motion_batch.specs.declared.sample.Sample.{Sample as Element};

    ghost Value = { List (List Element) };

    ghost view = { λ b. b.pending };

    ghost invariant = { λ b. length b.pending ≡ 8 };
}

impl Batcher {
    /// A batcher that has taken nothing.
    pub fn new(alloc: Global) -> Batcher
        ensures { RowsStandFor [] result }
    {
        Batcher {
            pending: [
                Pending::new(alloc),
                Pending::new(alloc),
                Pending::new(alloc),
                Pending::new(alloc),
                Pending::new(alloc),
                Pending::new(alloc),
                Pending::new(alloc),
                Pending::new(alloc),
            ],
            alloc,
        }
    }

    /// Takes a message, and appends the items that it releases. If memory runs out, nothing changes.
    #[tactic(auto, using(crate::proofs::Rows::no_others))]
    pub fn take(&mut self, message: &Message, out: &mut Vec<Item>) -> Result<(), AllocError>
        ensures items { (calls : List Call) → RowsStandFor calls self.old
            → OnOk result (out.new.items ≡ out.old.items ++ added (taken message.now) calls) }
        ensures stands { (calls : List Call) → RowsStandFor calls self.old
            → OnOk result (RowsStandFor (taken message.now ∷ calls) self.new) }
        ensures batched { (calls : List Call) → RowsStandFor calls self.old
            → OnOk result (IsBatched (taken message.now ∷ calls)) }
        ensures err { OnErr result (self.new ≡ self.old) }
        ensures err_items { OnErr result (out.new.items ≡ out.old.items) }
    {
        match &message.body {
            Body::Motion(motion) => {
                let row = usize::from(motion.device.get()) - 1;
                self.pending[row].take(self.alloc, message, motion, out)
            }
            Body::Key(_) | Body::Focus(_) => {
                out.push(Item::One(*message))?;
                Ok(())
            }
        }
    }

    /// Begins a frame: appends, in rising device, the moves of each device up to this time as one batch. If memory runs
    /// out, nothing changes.
    #[tactic(auto, using(crate::proofs::Batched::batched_then))]
    pub fn frame(&mut self, at: Moment, out: &mut Vec<Item>) -> Result<(), AllocError>
        ensures items { (calls : List Call) → RowsStandFor calls self.old
            → OnOk result (out.new.items ≡ out.old.items ++ added (framed at) calls) }
        ensures stands { (calls : List Call) → RowsStandFor calls self.old
            → OnOk result (RowsStandFor (framed at ∷ calls) self.new) }
        ensures batched { (calls : List Call) → RowsStandFor calls self.old
            → OnOk result (IsBatched (framed at ∷ calls)) }
        ensures err { OnErr result (self.new ≡ self.old) }
        ensures err_items { OnErr result (out.new.items ≡ out.old.items) }
    {
        self.give(&Some(at), out)
    }

    /// Begins a frame for all moves. If memory runs out, nothing changes.
    #[tactic(auto, using(crate::proofs::Batched::batched_then, crate::proofs::Batched::flushed_then))]
    pub fn flush(&mut self, out: &mut Vec<Item>) -> Result<(), AllocError>
        ensures items { (calls : List Call) → RowsStandFor calls self.old
            → OnOk result (out.new.items ≡ out.old.items ++ added flushed calls) }
        ensures stands { (calls : List Call) → RowsStandFor calls self.old
            → OnOk result (RowsStandFor (flushed ∷ calls) self.new) }
        ensures batched { (calls : List Call) → RowsStandFor calls self.old
            → OnOk result (IsBatched (flushed ∷ calls)) }
        ensures all { (calls : List Call) → RowsStandFor calls self.old
            → OnOk result (IsFlushed (flushed ∷ calls)) }
        ensures err { OnErr result (self.new ≡ self.old) }
        ensures err_items { OnErr result (out.new.items ≡ out.old.items) }
    {
        self.give(&None, out)
    }

    /// Releases what is due at a time.
    fn give(&mut self, at: &Option<Moment>, out: &mut Vec<Item>) -> Result<(), AllocError>
        ensures items { OnOk result (out.new.items ≡ out.old.items ++ due_of_rows at.now 1 self.old) }
        ensures kept { OnOk result (self.new ≡ rows_left at.now self.old) }
        ensures err { OnErr result (self.new ≡ self.old) }
        ensures err_items { OnErr result (out.new.items ≡ out.old.items) }
    {
        let start = out.len();
        if let Err(error) = self.append_due(at, out) {
            out.truncate(start);
            return Err(error);
        }
        self.drop_due(at);
        Ok(())
    }

    /// Appends what is due at a time, or as much of it as memory allows.
    fn append_due(&self, at: &Option<Moment>, out: &mut Vec<Item>) -> Result<(), AllocError>
        ensures items { OnOk result (out.new.items ≡ out.old.items ++ due_of_rows at.now 1 self.now) }
        ensures front { take (length out.old.items) out.new.items ≡ out.old.items }
    {
        for (row, pending) in self.pending.iter().enumerate() {
            let device = DeviceId::new(row as u8 + 1).unwrap();
            if let Some(batch) = pending.due(self.alloc, device, at)? {
                out.push(batch)?;
            }
        }
        Ok(())
    }

    /// Drops what is due at a time.
    fn drop_due(&mut self, at: &Option<Moment>)
        ensures { self.new ≡ rows_left at.now self.old }
    {
        for row in 0..8 {
            self.pending[row].drop_due(at);
        }
    }
}
