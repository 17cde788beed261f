//! The handle of a live service.
ghost use Rattle.std.specs.Prelude.{◌≡◌, Option, Some, None, is_some};
ghost use Rattle.std.specs.Option.{option_map};

use crate::live_cell::LiveCell;
use crate::unboxed::Unboxed;
use live_input::Limited;
use std::alloc::Global;
use std::mem;

/// `struct inputflinger_live`: a live service, or nothing while it is free. It is free if all its bytes are 0.
#[repr(C)]
pub struct Service {
    pub cell: LiveCell,
    pub(crate) is_open: bool,
    pub ghost held: { is_open ≡ is_some cell.state },
}

impl Service {
    /// A free handle.
    fn free(alloc: Global) -> Service
        ensures { result.cell.state ≡ None }
    {
        Service {
            cell: LiveCell::empty(alloc),
            is_open: false,
        }
    }

    /// Whether it has a service.
    pub(crate) fn is_open(&self) -> bool
        ensures { result ≡ is_some self.now.cell.state }
    {
        self.is_open
    }

    /// Takes the service out of its handle, which is then free. None if it was free before.
    pub(crate) fn take(&mut self, alloc: Global) -> Option<Box<Limited>>
        ensures taken { option_map (λ b. b.value) result ≡ self.old.cell.state }
        ensures free { self.new.cell.state ≡ None }
    {
        if !self.is_open {
            return None;
        }
        let Service { cell, is_open: _ } = mem::replace(self, Service::free(alloc));
        Some(cell.into_box())
    }

    /// Puts a service into a handle that is free.
    pub(crate) fn put(&mut self, live: Box<Limited>)
        requires { self.old.cell.state ≡ None }
        ensures { self.new.cell.state ≡ Some live.value }
    {
        let full = Service {
            cell: LiveCell::of(Unboxed::from_box(live)),
            is_open: true,
        };
        let Service { cell, is_open: _ } = mem::replace(self, full);
        cell.destroy_empty();
    }
}
