//! The moves of one device that are not yet released.
ghost use Rattle.std.specs.Prelude.{◌≡◌, ◌≤◌, ◌+◌, ◌++◌, [], ◌∷◌, length, OnOk, OnErr, IfOk};
ghost use Rattle.std.specs.Option.{option_to_list};
ghost use Rattle.input_types.specs.declared.message.Body.TheVariants.{Motion as MotionBody};
ghost use Rattle.motion_batch.specs.declared.item.Item.TheVariants.{One};
ghost use Rattle.motion_batch.specs.Rule.{added_by, batch_of, below_most, count_due, due_of, extends, full_of};
ghost use Rattle.motion_batch.specs.Rule.{has_same_ids, is_due, is_move, kept_after, left_by};

use crate::item::{Item, MOST_SAMPLES, batch_of, full_batch};
use crate::sample::Sample;
use input_types::{DeviceId, Message, Moment, Motion, MotionAction, Pointer};
use std::alloc::{AllocError, Global};
use std::marker::Model;

/// Whether a motion is a move that may wait.
fn is_move(motion: &Motion) -> bool
    ensures { result ≡ is_move (MotionBody motion.now) }
{
    matches!(motion.action, MotionAction::Move) && (motion.index == 0 && motion.flags == 0)
}

/// Whether two lists of pointers have the same ids.
fn has_same_ids(left: &[Pointer], right: &[Pointer]) -> bool
    ensures { result ≡ has_same_ids left.now right.now }
{
    let mut others = right;
    for pointer in left {
        let [other, rest @ ..] = others else {
            return false;
        };
        if pointer.id.get() != other.id.get() {
            return false;
        }
        others = rest;
    }
    others.is_empty()
}

/// Whether a frame at a time releases a sample; without a time it releases all.
fn is_due(at: &Option<Moment>, sample: &Sample) -> bool
    ensures { result ≡ is_due at.now sample.now }
{
    match at {
        Some(at) => sample.moment.get() <= at.get(),
        None => true,
    }
}

/// The waiting moves of one device, at most 255. Contracts see the list.
#[derive(Drop)]
pub(crate) struct Pending {
    samples: Vec<Sample>,
}

impl Model for Pending {
    ghost use Rattle.std.specs.Prelude.{List, ◌≤◌, length};
    ghost use Rattle.motion_batch.specs.declared.sample.Sample.{Sample as Element};

    ghost Value = { List Element };

    ghost view = { λ p. p.samples.items };

    ghost invariant = { λ p. length p.samples.items ≤ 255 };
}

impl Pending {
    /// No moves wait.
    pub(crate) fn new(alloc: Global) -> Pending
        ensures { result ≡ [] }
    {
        Pending {
            samples: Vec::new(alloc),
        }
    }

    /// Takes a motion of the device of these moves, and appends what it releases. If memory runs out, nothing changes.
    #[tactic(auto, using(crate::proofs::Extending::extends_moves))]
    pub(crate) fn take(
        &mut self,
        alloc: Global,
        message: &Message,
        motion: &Motion,
        out: &mut Vec<Item>,
    ) -> Result<(), AllocError>
        requires { message.now.body ≡ MotionBody motion.now }
        ensures items { OnOk result (out.new.items ≡ out.old.items ++ added_by self.old message.now) }
        ensures kept { OnOk result (self.new ≡ kept_after self.old message.now) }
        ensures err { OnErr result (self.new ≡ self.old) }
        ensures err_items { OnErr result (out.new.items ≡ out.old.items) }
    {
        if !is_move(motion) {
            return self.end(alloc, message, motion.device, out);
        }
        let sample = Sample {
            seq: message.seq,
            moment: message.moment,
            pointers: motion.pointers,
        };
        if self.extends(motion) {
            self.extend(alloc, motion.device, sample, out)
        } else {
            self.begin(alloc, motion.device, sample, out)
        }
    }

    /// Whether a move continues the waiting ones: it has the same pointers.
    #[tactic(auto, using(crate::proofs::Extending::extends_last))]
    fn extends(&self, motion: &Motion) -> bool
        ensures { result ≡ extends self.now (MotionBody motion.now) }
    {
        match self.samples.as_slice().last() {
            Some(last) => {
                is_move(motion)
                    && has_same_ids(last.pointers.as_slice(), motion.pointers.as_slice())
            }
            None => false,
        }
    }

    /// Appends one more sample to the waiting ones. A full batch is released.
    fn extend(
        &mut self,
        alloc: Global,
        device: DeviceId,
        sample: Sample,
        out: &mut Vec<Item>,
    ) -> Result<(), AllocError>
        ensures items { OnOk result (out.new.items ≡ out.old.items ++ full_of device (self.old ++ sample ∷ [])) }
        ensures kept { OnOk result (self.new ≡ below_most (self.old ++ sample ∷ [])) }
        ensures err { OnErr result (self.new ≡ self.old) }
        ensures err_items { OnErr result (out.new.items ≡ out.old.items) }
    {
        if self.samples.len() + 1 < MOST_SAMPLES {
            self.samples.push(sample)?;
            return Ok(());
        }
        let batch = full_batch(alloc, device, &self.samples, sample)?;
        out.push(batch)?;
        self.samples.clear();
        Ok(())
    }

    /// Releases the waiting moves, and starts with a sample.
    fn begin(
        &mut self,
        alloc: Global,
        device: DeviceId,
        sample: Sample,
        out: &mut Vec<Item>,
    ) -> Result<(), AllocError>
        ensures items { OnOk result (out.new.items ≡ out.old.items ++ batch_of device self.old) }
        ensures kept { OnOk result (self.new ≡ sample ∷ []) }
        ensures err { OnErr result (self.new ≡ self.old) }
        ensures err_items { OnErr result (out.new.items ≡ out.old.items) }
    {
        self.samples.reserve(1)?;
        if let Some(batch) = batch_of(alloc, device, &self.samples)? {
            out.push(batch)?;
        }
        self.samples.clear();
        self.samples.push_reserved(sample);
        Ok(())
    }

    /// Releases the waiting moves, and then a message by itself.
    fn end(
        &mut self,
        alloc: Global,
        message: &Message,
        device: DeviceId,
        out: &mut Vec<Item>,
    ) -> Result<(), AllocError>
        ensures items { OnOk result (out.new.items
            ≡ out.old.items ++ (batch_of device self.old ++ One message.now ∷ [])) }
        ensures kept { OnOk result (self.new ≡ []) }
        ensures err { OnErr result (self.new ≡ self.old) }
        ensures err_items { OnErr result (out.new.items ≡ out.old.items) }
    {
        let batch = batch_of(alloc, device, &self.samples)?;
        out.reserve(2)?;
        if let Some(batch) = batch {
            out.push_reserved(batch);
        }
        out.push_reserved(Item::One(*message));
        self.samples.clear();
        Ok(())
    }

    /// How many of the waiting moves a frame releases.
    fn count_due(&self, at: &Option<Moment>) -> usize
        ensures value { result ≡ count_due at.now self.now }
        ensures few { result ≤ length self.now }
    {
        let mut count = 0;
        while count < self.samples.len() && is_due(at, &self.samples[count]) {
            count += 1;
        }
        count
    }

    /// The batch that a frame releases; None if no waiting move is due.
    pub(crate) fn due(
        &self,
        alloc: Global,
        device: DeviceId,
        at: &Option<Moment>,
    ) -> Result<Option<Item>, AllocError>
        ensures { IfOk result (λ item. option_to_list item ≡ batch_of device (due_of at.now self.now)) }
    {
        let count = self.count_due(at);
        batch_of(alloc, device, self.samples.split_at(count).0)
    }

    /// Drops those that a frame released.
    pub(crate) fn drop_due(&mut self, at: &Option<Moment>)
        ensures { self.new ≡ left_by at.now self.old }
    {
        let count = self.count_due(at);
        let len = self.samples.len();
        self.samples.copy_within(count..len, 0);
        self.samples.truncate(len - count);
    }
}
