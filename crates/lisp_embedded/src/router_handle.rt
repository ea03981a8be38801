//! A router behind a pointer, for a program in C that keeps the pointer.

ghost use Rattle.std.specs.Prelude.{◌≡◌};
ghost use Rattle.std.specs.Option.{MatchOption};
ghost use Rattle.std.specs.declared.option.Option.{Option};
ghost use Rattle.std.specs.declared.option.Option.TheVariants.{None, Some};
ghost use Rattle.std.specs.Coded.{codes};
ghost use Rattle.lisp_embedded.specs.Held.{held};
ghost use Rattle.lisp_embedded.specs.contracts.hosted.HostedRouter.{the_row as core_row};
ghost use Rattle.lisp_embedded.specs.declared.hosted.HostedRouter.{HostedRouter as State};

use crate::hosted::HostedRouter;
use crate::parts::BoxParts;
use std::alloc::Global;
use std::marker::Model;
use std::ptr::null_mut;

/// A router on the heap, or nothing. C sees one pointer, null where there is nothing, and never copies it.
#[repr(C)]
pub struct RouterHandle {
    at: *mut u8,
    alloc: Global,
    pub ghost value: { Option State } by { Prim.hlevel codes },
}

impl Model for RouterHandle {
    ghost also_owns = { λ handle. held core_row handle.alloc handle.at handle.value };
}

impl RouterHandle {
    /// No router; takes no memory.
    pub fn none(alloc: Global) -> RouterHandle
        ensures { result.value ≡ None }
    {
        RouterHandle {
            at: null_mut(),
            alloc,
        }
    }

    /// The router of a box; takes no memory.
    pub fn of(whole: Box<HostedRouter, Global>) -> RouterHandle
        ensures { result.value ≡ Some whole.value }
    {
        RouterHandle::of_parts(BoxParts::of(whole))
    }

    /// The router that is held, where there is one; takes no memory.
    pub fn into_box(self) -> Option<Box<HostedRouter, Global>>
        ensures { MatchOption result (self.value ≡ None) (λ whole. self.value ≡ Some whole.value) }
    {
        match self.into_parts() {
            None => None,
            Some(parts) => Some(parts.into_box()),
        }
    }

    /// The router that was held, where there was one. Nothing is held from then on. Takes no memory.
    pub fn take(&mut self, alloc: Global) -> Option<Box<HostedRouter, Global>>
        ensures left { self.new.value ≡ None }
        ensures value { MatchOption result (self.old.value ≡ None)
            (λ whole. self.old.value ≡ Some whole.value) }
    {
        std::mem::replace(self, RouterHandle::none(alloc)).into_box()
    }

    fn of_parts(parts: BoxParts<HostedRouter, Global>) -> RouterHandle
        ensures { result.value ≡ Some parts.value }
    {
        let BoxParts { at, alloc } = parts;
        RouterHandle {
            at: at.cast::<u8>(),
            alloc,
        }
    }

    fn into_parts(self) -> Option<BoxParts<HostedRouter, Global>>
        ensures { MatchOption result (self.value ≡ None) (λ parts. self.value ≡ Some parts.value) }
    {
        let RouterHandle { at, alloc } = self;
        if at.is_null() {
            None
        } else {
            Some(BoxParts {
                at: at.cast::<HostedRouter>(),
                alloc,
            })
        }
    }
}

impl Drop for RouterHandle {
    fn drop(self) {
        drop(self.into_box());
    }
}
