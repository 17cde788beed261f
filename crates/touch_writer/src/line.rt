//! Events as lines.
ghost use Rattle.std.specs.Prelude.{◌≡◌, ◌+◌, ◌-◌, ◌*◌, ◌/◌, ◌%◌, ◌<◌, ◌≤◌, ◌++◌, IfOk, OnOk, OnErr};
ghost use Rattle.std.specs.Prelude.{decimal, replicate};
ghost use Rattle.touch_writer.specs.EventText.{digit as digit_of, digits, in_eight, stamp, fields, event_line};

use itoa::Buffer;
use raw_events::RawEvent;
use std::alloc::{AllocError, Global};
use text_lines::add_word;

/// A digit: 0 to 9, and a to f for 10 to 15.
fn digit(value: u32) -> u8
    requires { value < 16 }
    ensures { result ≡ digit_of value }
{
    if value < 10 {
        b'0' + value as u8
    } else {
        b'a' - 10 + value as u8
    }
}

/// Adds the last `places` digits of a number in a base.
#[tactic(auto, using(crate::proofs::Digits::digits_none, crate::proofs::Digits::digits_more))]
fn add_digits(text: &mut Vec<u8>, base: u32, places: u32, number: u32) -> Result<(), AllocError>
    requires { (1 ≤ base) × (base ≤ 16) }
    ensures { IfOk result (λ _. text.new.items ≡ text.old.items ++ digits base places number) }
{
    if places == 0 {
        return Ok(());
    }
    add_digits(text, base, places - 1, number / base)?;
    text.push(digit(number % base))?;
    Ok(())
}

/// Adds a number, padded with blanks to eight bytes.
#[tactic(auto, unfolding(crate::specs::EventText::in_eight))]
fn add_in_eight(text: &mut Vec<u8>, number: u64) -> Result<(), AllocError>
    ensures { IfOk result (λ _. text.new.items ≡ text.old.items ++ in_eight (decimal number)) }
{
    let mut buffer = Buffer::new();
    let digits = buffer.format(number).as_bytes();
    add_blanks(text, 8usize.saturating_sub(digits.len()))?;
    text.extend_from_slice(digits)
}

/// Adds blanks.
fn add_blanks(text: &mut Vec<u8>, count: usize) -> Result<(), AllocError>
    requires { count ≤ 8 }
    ensures { IfOk result (λ _. text.new.items ≡ text.old.items ++ replicate count 32) }
{
    for _ in 0..count {
        text.push(b' ')?;
    }
    Ok(())
}

/// Adds a time in seconds, with six digits of microseconds, in brackets.
#[tactic(auto, unfolding(crate::specs::EventText::stamp))]
fn add_stamp(text: &mut Vec<u8>, moment: u64) -> Result<(), AllocError>
    ensures { IfOk result (λ _. text.new.items ≡ text.old.items ++ stamp moment) }
{
    add_word(text, "[")?;
    add_in_eight(text, moment / 1_000_000)?;
    add_word(text, ".")?;
    add_digits(text, 10, 6, (moment % 1_000_000) as u32)?;
    add_word(text, "] ")
}

/// Adds type, code and value.
#[tactic(auto, unfolding(crate::specs::EventText::fields))]
fn add_fields(text: &mut Vec<u8>, event: &RawEvent) -> Result<(), AllocError>
    ensures { IfOk result (λ _. text.new.items ≡ text.old.items ++ fields event.now) }
{
    add_digits(text, 16, 4, u32::from(event.kind))?;
    add_word(text, " ")?;
    add_digits(text, 16, 4, u32::from(event.code))?;
    add_word(text, " ")?;
    add_digits(text, 16, 8, event.value.cast_unsigned())
}

#[tactic(auto, unfolding(crate::specs::EventText::event_line))]
fn add_event(text: &mut Vec<u8>, path: &str, event: &RawEvent) -> Result<(), AllocError>
    ensures { IfOk result (λ _. text.new.items ≡ text.old.items ++ event_line path.now event.now) }
{
    add_stamp(text, event.moment.get())?;
    add_word(text, path)?;
    add_word(text, ": ")?;
    add_fields(text, event)?;
    add_word(text, "\n")
}

/// Writes events as lines, and keeps one buffer for them.
#[derive(Drop)]
pub struct EventWriter {
    line: Vec<u8>,
}

impl EventWriter {
    /// A writer that has no buffer yet.
    pub fn new(alloc: Global) -> EventWriter {
        EventWriter {
            line: Vec::new(alloc),
        }
    }

    /// Appends the line of an event of the device at `path`, as `getevent -t` prints it. If memory runs out, `out` is
    /// as before.
    pub fn event(
        &mut self,
        path: &str,
        event: &RawEvent,
        out: &mut Vec<u8>,
    ) -> Result<(), AllocError>
        ensures ok { OnOk result (out.new.items ≡ out.old.items ++ event_line path.now event.now) }
        ensures err { OnErr result (out.new.items ≡ out.old.items) }
    {
        self.line.clear();
        add_event(&mut self.line, path, event)?;
        out.extend_from_slice(&self.line)
    }
}

/// Appends the line of an event, as `EventWriter::event` does.
pub fn event_text(path: &str, event: &RawEvent, out: &mut Vec<u8>) -> Result<(), AllocError>
    ensures ok { OnOk result (out.new.items ≡ out.old.items ++ event_line path.now event.now) }
    ensures err { OnErr result (out.new.items ≡ out.old.items) }
{
    EventWriter::new(*out.allocator()).event(path, event, out)
}
