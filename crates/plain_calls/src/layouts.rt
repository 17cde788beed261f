//! Layouts of keys, which C hands in as texts.
ghost use Rattle.std.specs.Prelude.{Ok};
ghost use Rattle.plain_calls.specs.Layouts.{IsLayout, layout_from};

use key_layout::{Layout, LayoutError};
use std::alloc::Global;
use std::str;

/// Why a layout was not read.
#[derive(Clone, Copy, Debug, PartialEq, Eq)]
pub(crate) enum NoLayout {
    /// This line is refused, from 1 on; 0 if the bytes are not UTF-8 text.
    Line(u64),
    /// Out of memory.
    Memory,
}

/// The layout of a text in the form of Android's `.kl` files.
pub(crate) fn read_layout(alloc: Global, bytes: &[u8]) -> Result<Layout, NoLayout>
    ensures { IsLayout result (layout_from bytes.now) }
{
    let Ok(text) = str::from_utf8(bytes) else {
        return Err(NoLayout::Line(0));
    };
    match Layout::read(alloc, text) {
        Ok(layout) => Ok(layout),
        Err(LayoutError::BadLine { line }) => Err(NoLayout::Line(line)),
        Err(LayoutError::BadName { line }) => Err(NoLayout::Line(line)),
        Err(LayoutError::Twice { line, .. }) => Err(NoLayout::Line(line)),
        Err(LayoutError::Memory) => Err(NoLayout::Memory),
    }
}
