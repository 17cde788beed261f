//! The handle of a judge.
ghost use Rattle.std.specs.Prelude.{◌≡◌, Option, Some, None, is_some};
ghost use Rattle.std.specs.Option.{option_map};

use crate::judge_cell::JudgeCell;
use crate::unboxed::Unboxed;
use gesture_verifier::Verifier;
use std::alloc::Global;
use std::mem;

/// `struct inputflinger_judge`: a judge, or nothing while it is free. It is free if all its bytes are 0.
#[repr(C)]
pub struct Judge {
    pub cell: JudgeCell,
    pub(crate) is_open: bool,
    pub ghost told: { is_open ≡ is_some cell.told },
}

impl Judge {
    /// A free handle.
    fn free(alloc: Global) -> Judge
        ensures { result.cell.told ≡ None }
    {
        Judge {
            cell: JudgeCell::empty(alloc),
            is_open: false,
        }
    }

    /// Whether it has a judge.
    pub(crate) fn is_open(&self) -> bool
        ensures { result ≡ is_some self.now.cell.told }
    {
        self.is_open
    }

    /// Takes the judge out of its handle, which is then free. None if it was free before.
    pub(crate) fn take(&mut self, alloc: Global) -> Option<Box<Verifier>>
        ensures taken { option_map (λ b. b.value) result ≡ self.old.cell.told }
        ensures free { self.new.cell.told ≡ None }
    {
        if !self.is_open {
            return None;
        }
        let Judge { cell, is_open: _ } = mem::replace(self, Judge::free(alloc));
        Some(cell.into_box())
    }

    /// Puts a judge into a handle that is free.
    pub(crate) fn put(&mut self, judge: Box<Verifier>)
        requires { self.old.cell.told ≡ None }
        ensures { self.new.cell.told ≡ Some judge.value }
    {
        let full = Judge {
            cell: JudgeCell::of(Unboxed::from_box(judge)),
            is_open: true,
        };
        let Judge { cell, is_open: _ } = mem::replace(self, full);
        cell.destroy_empty();
    }
}
