//! Items as lines.
ghost use Rattle.std.specs.Prelude.{◌≡◌, ◌++◌, ◌<◌, ◌+◌, IfOk};
ghost use Rattle.batch_text.specs.Lines.{batch_line, channel_line, count_line, first_seq, item_line, item_lines, last_seq, one_line};

use motion_batch::{Batch, Item, Sample};
use std::alloc::AllocError;
use text_lines::{add_labeled, add_word};

/// The number of the first sample.
fn first_seq(samples: &[Sample]) -> u64
    ensures { result ≡ first_seq samples.now }
{
    match samples {
        [first, ..] => first.seq,
        [] => 0,
    }
}

/// The number of the last sample.
#[tactic(auto, using(crate::proofs::Lasts::last_seq_at))]
fn last_seq(samples: &[Sample]) -> u64
    ensures { result ≡ last_seq samples.now }
{
    match samples.last() {
        Some(last) => last.seq,
        None => 0,
    }
}

/// The first line of a section.
#[tactic(auto, unfolding(crate::specs::Lines::channel_line, text_lines::specs::Written::labeled))]
pub(crate) fn add_channel(text: &mut Vec<u8>, id: u32) -> Result<(), AllocError>
    ensures { IfOk result (λ _. text.new.items ≡ text.old.items ++ channel_line id) }
{
    add_labeled(text, "channel ", u64::from(id))?;
    add_word(text, "\n")
}

/// The last line of a section.
#[tactic(auto, unfolding(crate::specs::Lines::count_line, text_lines::specs::Written::labeled))]
pub(crate) fn add_count(text: &mut Vec<u8>, count: u64) -> Result<(), AllocError>
    ensures { IfOk result (λ _. text.new.items ≡ text.old.items ++ count_line count) }
{
    add_labeled(text, "items ", count)?;
    add_word(text, "\n")
}

#[tactic(auto, unfolding(crate::specs::Lines::one_line, text_lines::specs::Written::labeled))]
fn add_one(text: &mut Vec<u8>, seq: u64) -> Result<(), AllocError>
    ensures { IfOk result (λ _. text.new.items ≡ text.old.items ++ one_line seq) }
{
    add_labeled(text, "one ", seq)?;
    add_word(text, "\n")
}

fn add_batch(text: &mut Vec<u8>, batch: &Batch) -> Result<(), AllocError>
    ensures { IfOk result (λ _. text.new.items ≡ text.old.items ++ batch_line batch.now) }
{
    let samples = batch.samples();
    add_labeled(text, "batch ", first_seq(samples))?;
    add_labeled(text, "-", last_seq(samples))?;
    add_labeled(text, " ", u64::from(batch.device().get()))?;
    add_labeled(text, " ", samples.len() as u64)?;
    add_word(text, "\n")
}

fn add_item(text: &mut Vec<u8>, item: &Item) -> Result<(), AllocError>
    ensures { IfOk result (λ _. text.new.items ≡ text.old.items ++ item_line item.now) }
{
    match item {
        Item::One(message) => add_one(text, message.seq),
        Item::Batch(batch) => add_batch(text, batch),
    }
}

/// A line for each item.
pub(crate) fn add_items(text: &mut Vec<u8>, items: &[Item]) -> Result<(), AllocError>
    ensures { IfOk result (λ _. text.new.items ≡ text.old.items ++ item_lines items.now) }
{
    for item in items {
        add_item(text, item)?;
    }
    Ok(())
}
