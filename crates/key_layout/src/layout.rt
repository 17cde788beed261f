//! The keys of a layout.
ghost use Rattle.std.specs.Prelude.{◌≡◌};
ghost use Rattle.key_layout.specs.Low.{IsLow};

use crate::error::LayoutError;
use crate::line::{Line, line_said};
use std::alloc::{AllocError, Global};
use std::collections::BTreeMap;
use std::marker::Model;
use text_lines::first_line;

/// The key codes of a device's scan codes. Contracts see it as a list of pairs of a scan code and its key code, in
/// rising scan code.
#[derive(Drop)]
pub struct Layout {
    codes: BTreeMap<u16, u16>,
    /// The key codes of the scan codes below 256, where most keys are.
    low: [u16; 256],
}

impl Model for Layout {
    ghost use Rattle.key_layout.specs.Layout.{Codes};
    ghost use Rattle.key_layout.specs.Low.{IsLow};

    ghost Value = { Codes };

    ghost view = { λ l. l.codes.entries };

    ghost invariant = { λ l. IsLow l.codes.entries l.low };
}

impl Layout {
    ghost use Rattle.key_layout.specs.Layout.{Answers, code_at, layout_of};

    /// The layout of a text in the form of Android's `.kl` files, or the refusal of its first refused line.
    ///
    /// Lines are numbered from 1 and end in a newline or at the end of the text; a carriage return before the newline
    /// is removed. A `#` begins a comment. Words are separated by spaces and tabs. A line without words is skipped,
    /// and so is one that begins with `axis`, `led`, `sensor`, `requires_kernel_config` or `key usage`. A line `key
    /// SCAN NAME FLAGS..` gives the key code of the name to the scan code, a number from 0 to 65535 in decimal digits
    /// or as `0x` and hexadecimal ones; flags are ignored. A name of capital letters, digits and underscores that has
    /// no code here gives 0, and no later line may have its scan code. Any other line is refused.
    #[tactic(auto, unfolding(crate::specs::Layout::layout_of))]
    pub fn read(alloc: Global, text: &str) -> Result<Layout, LayoutError>
        ensures { Answers (λ l. l) result (layout_of text.now) }
    {
        let mut codes = BTreeMap::new(alloc);
        let mut rest = text.as_bytes();
        let mut number: u64 = 1;
        'lines: while !rest.is_empty() {
            let line = first_line(rest);
            add_line(&mut codes, number, line_said(line.text, line.ended))?;
            number = number.saturating_add(1);
            rest = line.rest;
        }
        let low = low_codes(&codes);
        Ok(Layout { codes, low })
    }

    /// The key code of a scan code, or 0 if no line gives it one.
    pub fn code_of(&self, scan: u16) -> u16
        ensures { result ≡ code_at self.now scan }
    {
        if scan < 256 {
            return self.low[usize::from(scan)];
        }
        code_in(&self.codes, scan)
    }
}

ghost use Rattle.key_layout.specs.Layout.{Answers, code_at, with_line};

/// The key code beside a scan code, or 0 if there is none.
fn code_in(codes: &BTreeMap<u16, u16>, scan: u16) -> u16
    ensures { result ≡ code_at codes.now.entries scan }
{
    match codes.get(&scan) {
        Some(code) => *code,
        None => 0,
    }
}

/// The key codes of the scan codes below 256, in a table.
fn low_codes(codes: &BTreeMap<u16, u16>) -> [u16; 256]
    ensures { IsLow codes.now.entries result }
{
    let mut low = [0; 256];
    for scan in 0..256 {
        low[scan] = code_in(codes, scan as u16);
    }
    low
}

/// Adds what a line says. After a refusal the codes no longer matter.
fn add_line(codes: &mut BTreeMap<u16, u16>, number: u64, line: Line) -> Result<(), LayoutError>
    ensures { Answers (λ _. codes.new.entries) result (with_line codes.old.entries number line) }
{
    match line {
        Line::PassedOver => Ok(()),
        Line::Key { scan, code } => match codes.insert(scan, code)? {
            None => Ok(()),
            Some(_) => Err(LayoutError::Twice { line: number, scan }),
        },
        Line::BadLine => Err(LayoutError::BadLine { line: number }),
        Line::BadName => Err(LayoutError::BadName { line: number }),
    }
}

impl Clone for Layout {
    ghost is_clone = { λ l copy. copy ≡ l };

    /// A copy of the layout in its own memory.
    fn clone(&self) -> Result<Layout, AllocError> {
        Ok(Layout {
            codes: self.codes.clone()?,
            low: self.low,
        })
    }
}
