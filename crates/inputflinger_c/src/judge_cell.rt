//! Where the judge of a handle is stored.
ghost use Rattle.std.specs.Prelude.{◌≡◌, Option, Some, None, IsSome};
ghost use Rattle.gesture_verifier.specs.Told.{Told};
ghost use Rattle.inputflinger_c.specs.Owning.{sent_coded, judge_owns};

use crate::unboxed::Unboxed;
use gesture_verifier::Verifier;
use std::alloc::Global;
use std::marker::Model;
use std::ptr;

/// The judge that a handle owns, or nothing.
#[repr(C)]
pub struct JudgeCell {
    at: *mut u8,
    alloc: Global,
    pub ghost told: { Option Told } by { sent_coded },
}

impl Model for JudgeCell {
    ghost also_owns = { λ c. judge_owns c.alloc c.at c.told };
}

impl JudgeCell {
    /// A cell without a judge.
    pub fn empty(alloc: Global) -> JudgeCell
        ensures { result.told ≡ None }
    {
        JudgeCell {
            at: ptr::null_mut(),
            alloc,
        }
    }

    /// The cell of a judge.
    pub fn of(judge: Unboxed<Verifier, Global>) -> JudgeCell
        ensures { result.told ≡ Some judge.value }
    {
        let Unboxed { at, alloc } = judge;
        JudgeCell {
            at: at as *mut u8,
            alloc,
        }
    }

    /// Takes apart a cell without a judge, which owns no memory.
    pub fn destroy_empty(self)
        requires { self.told ≡ None }
    {
        let JudgeCell { at: _, alloc: _ } = self;
    }

    /// The judge of a cell that has one.
    pub fn into_box(self) -> Box<Verifier>
        requires { IsSome self.told }
        ensures { self.told ≡ Some result.value }
    {
        let JudgeCell { at, alloc } = self;
        unsafe { Box::from_raw(alloc, at as *mut Verifier) }
    }
}
