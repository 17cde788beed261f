//! Where the service of a handle is stored.
ghost use Rattle.std.specs.Prelude.{◌≡◌, Option, Some, None, IsSome};
ghost use Rattle.live_input.specs.declared.limit.Limited.{Limited as LimitedView};
ghost use Rattle.inputflinger_c.specs.LiveOwning.{live_coded, live_owns};

use crate::unboxed::Unboxed;
use live_input::Limited;
use std::alloc::Global;
use std::marker::Model;
use std::ptr;

/// The service that a handle owns, or nothing.
#[repr(C)]
pub struct LiveCell {
    at: *mut u8,
    alloc: Global,
    pub ghost state: { Option LimitedView } by { live_coded },
}

impl Model for LiveCell {
    ghost also_owns = { λ c. live_owns c.alloc c.at c.state };
}

impl LiveCell {
    /// A cell without a service.
    pub fn empty(alloc: Global) -> LiveCell
        ensures { result.state ≡ None }
    {
        LiveCell {
            at: ptr::null_mut(),
            alloc,
        }
    }

    /// The cell of a service.
    pub fn of(service: Unboxed<Limited, Global>) -> LiveCell
        ensures { result.state ≡ Some service.value }
    {
        let Unboxed { at, alloc } = service;
        LiveCell {
            at: at as *mut u8,
            alloc,
        }
    }

    /// Takes apart a cell without a service, which owns no memory.
    pub fn destroy_empty(self)
        requires { self.state ≡ None }
    {
        let LiveCell { at: _, alloc: _ } = self;
    }

    /// The service of a cell that has one.
    pub fn into_box(self) -> Box<Limited>
        requires { IsSome self.state }
        ensures { self.state ≡ Some result.value }
    {
        let LiveCell { at, alloc } = self;
        unsafe { Box::from_raw(alloc, at as *mut Limited) }
    }
}
