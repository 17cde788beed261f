//! The steps of a session against the moments of a recording.
ghost use Rattle.std.specs.Prelude.{◌≡◌, ◌++◌, length, filter, IfOk};
ghost use Rattle.inspect_text.specs.Inspected.{is_after, is_before, is_within, late_steps_hint, steps_text};

use recording_counts::Span;
use session_plan::Step;
use std::alloc::AllocError;
use text_lines::{add_labeled, add_word};

/// Whether a step is before the earliest time. All steps are if there is none.
fn is_before(span: &Option<Span>, step: &Step) -> bool
    ensures { result ≡ is_before span.now step.now }
{
    match span {
        Some(span) => step.at.get() < span.first.get(),
        None => true,
    }
}

/// Whether a step is after the latest time.
fn is_after(span: &Option<Span>, step: &Step) -> bool
    ensures { result ≡ is_after span.now step.now }
{
    match span {
        Some(span) => span.last.get() < step.at.get(),
        None => false,
    }
}

/// Whether a step is neither.
fn is_within(span: &Option<Span>, step: &Step) -> bool
    ensures { result ≡ is_within span.now step.now }
{
    !(is_before(span, step) || is_after(span, step))
}

/// How many steps are before the earliest time.
fn before(span: &Option<Span>, steps: &[Step]) -> u64
    ensures { result ≡ length (filter (is_before span.now) steps.now) }
{
    steps.iter().filter(|step| is_before(span, step)).count() as u64
}

/// How many steps are from the earliest time to the latest.
fn within(span: &Option<Span>, steps: &[Step]) -> u64
    ensures { result ≡ length (filter (is_within span.now) steps.now) }
{
    steps.iter().filter(|step| is_within(span, step)).count() as u64
}

/// How many steps are after the latest time.
fn after(span: &Option<Span>, steps: &[Step]) -> u64
    ensures { result ≡ length (filter (is_after span.now) steps.now) }
{
    steps.iter().filter(|step| is_after(span, step)).count() as u64
}

/// Adds how many steps there are, and when they are.
pub(crate) fn add_steps(
    text: &mut Vec<u8>,
    span: &Option<Span>,
    steps: &[Step],
) -> Result<(), AllocError>
    ensures { IfOk result (λ _. text.new.items ≡ text.old.items ++ steps_text span.now steps.now) }
{
    add_labeled(text, "steps ", steps.len() as u64)?;
    add_labeled(text, " before ", before(span, steps))?;
    add_labeled(text, " within ", within(span, steps))?;
    add_labeled(text, " after ", after(span, steps))?;
    add_word(text, "\n")
}

/// Adds the hint at steps that come after all events.
pub(crate) fn add_late_steps(
    text: &mut Vec<u8>,
    span: &Option<Span>,
    steps: &[Step],
) -> Result<(), AllocError>
    ensures { IfOk result (λ _. text.new.items ≡ text.old.items ++ late_steps_hint span.now steps.now) }
{
    if after(span, steps) == 0 {
        Ok(())
    } else {
        add_word(text, "hint steps after\n")
    }
}
