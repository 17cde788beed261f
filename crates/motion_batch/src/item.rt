//! What a batcher releases.
ghost use Rattle.std.specs.Prelude.{◌≡◌, ◌≤◌, ◌++◌, [], ◌∷◌, length, IfOk};
ghost use Rattle.std.specs.Option.{option_to_list};
ghost use Rattle.motion_batch.specs.Rule.{batch_of};

use crate::sample::Sample;
use input_types::{DeviceId, Message};
use std::alloc::{AllocError, Global};
use std::marker::Model;

/// The most samples of a batch.
pub const MOST_SAMPLES: usize = 256;

/// Successive moves of one device. Contracts see the device and the list of its samples.
#[derive(Drop)]
pub struct Batch {
    device: DeviceId,
    samples: Vec<Sample>,
}

impl Model for Batch {
    ghost use Rattle.std.specs.Prelude.{◌≤◌, length};
    ghost use Rattle.motion_batch.specs.Data.{BatchData};

    ghost Value = { BatchData };

    ghost view = { λ b. record { device = b.device; samples = b.samples.items } };

    ghost invariant = { λ b. (1 ≤ length b.samples.items) × (length b.samples.items ≤ 256) };
}

impl Batch {
    /// The device of the moves.
    pub fn device(&self) -> DeviceId
        ensures { result ≡ self.now.device }
    {
        self.device
    }

    /// The moves in the order in which they were taken, 1 to 256.
    pub fn samples(&self) -> &[Sample]
        ensures value { result.now ≡ self.now.samples }
        ensures some { 1 ≤ length result.now }
        ensures few { length result.now ≤ 256 }
    {
        self.samples.as_slice()
    }
}

/// What an application receives at once.
#[derive(Drop)]
pub enum Item {
    /// A message by itself.
    One(Message),
    /// Successive moves of one device.
    Batch(Batch),
}

/// These samples of a device as a batch; None if there are none.
pub(crate) fn batch_of(
    alloc: Global,
    device: DeviceId,
    samples: &[Sample],
) -> Result<Option<Item>, AllocError>
    requires { length samples.now ≤ 256 }
    ensures { IfOk result (λ item. option_to_list item ≡ batch_of device samples.now) }
{
    if samples.is_empty() {
        return Ok(None);
    }
    let samples = Vec::from_slice(alloc, samples)?;
    Ok(Some(Item::Batch(Batch { device, samples })))
}

/// The batch that a last sample makes full.
pub(crate) fn full_batch(
    alloc: Global,
    device: DeviceId,
    samples: &[Sample],
    last: Sample,
) -> Result<Item, AllocError>
    requires { length samples.now ≡ 255 }
    ensures { IfOk result (λ item. item ∷ [] ≡ batch_of device (samples.now ++ last ∷ [])) }
{
    let mut all = Vec::with_capacity(alloc, MOST_SAMPLES)?;
    all.extend_from_slice(samples)?;
    all.push(last)?;
    Ok(Item::Batch(Batch {
        device,
        samples: all,
    }))
}
