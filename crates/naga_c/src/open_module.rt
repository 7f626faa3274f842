//! What a host holds of a module that it opened.

ghost use Rattle.naga_c.specs.OpenModules.{held_coded, open_module_owns};
ghost use Rattle.naga_c.specs.declared.accepted.AcceptedModule.{AcceptedModule as Accepted};
ghost use Rattle.std.specs.Option.{MatchOption};
ghost use Rattle.std.specs.Prelude.{◌≡◌};
ghost use Rattle.std.specs.declared.option.Option.TheVariants.{None, Some};
ghost use Rattle.std.specs.declared.option.Option.{Option as Maybe};

use crate::accepted::AcceptedModule;
use crate::loose::Loose;
use std::alloc::Global;
use std::marker::Model;
use std::mem;
use std::ptr::null_mut;

/// An accepted module that a host keeps, or none: `naga_check_module` of bindings/c/naga_check.h. The address is that of
/// a box, or null, and C doesn't learn what is there. The allocator takes no bytes.
#[repr(C)]
pub struct OpenModule {
    at: *mut u8,
    alloc: Global,
    pub(crate) ghost held: { Maybe Accepted } by { held_coded },
}

impl Model for OpenModule {
    ghost also_owns = { λ m. open_module_owns m.alloc m.at m.held };
}

impl OpenModule {
    /// None.
    pub(crate) fn null(alloc: Global) -> OpenModule
        ensures { result.held ≡ None }
    {
        OpenModule {
            at: null_mut(),
            alloc,
        }
    }

    /// Of a box that was taken apart.
    fn of_loose(loose: Loose<AcceptedModule, Global>) -> OpenModule
        ensures { result.held ≡ Some loose.value }
    {
        let Loose { at, alloc } = loose;
        OpenModule {
            at: at as *mut u8,
            alloc,
        }
    }

    /// The box, taken apart, if there is one.
    fn into_loose(self) -> Option<Loose<AcceptedModule, Global>>
        ensures { MatchOption result (self.held ≡ None) (λ loose. self.held ≡ Some loose.value) }
    {
        let OpenModule { at, alloc } = self;
        if at.is_null() {
            None
        } else {
            Some(Loose {
                at: at as *mut AcceptedModule,
                alloc,
            })
        }
    }

    /// Of a box.
    pub(crate) fn of(accepted: Box<AcceptedModule>) -> OpenModule
        ensures { result.held ≡ Some accepted.value }
    {
        OpenModule::of_loose(Loose::of(accepted))
    }

    /// The box, if there is one.
    fn into_box(self) -> Option<Box<AcceptedModule>>
        ensures { MatchOption result (self.held ≡ None) (λ kept. self.held ≡ Some kept.value) }
    {
        match self.into_loose() {
            Some(loose) => Some(loose.into_box()),
            None => None,
        }
    }

    /// Takes the box out, if there is one. C hands on a module by its address alone, so that it can't be read in place.
    pub(crate) fn take(&mut self, alloc: Global) -> Option<Box<AcceptedModule>>
        ensures taken { MatchOption result (self.old.held ≡ None) (λ kept. self.old.held ≡ Some kept.value) }
        ensures none { self.new.held ≡ None }
    {
        mem::replace(self, OpenModule::null(alloc)).into_box()
    }
}

impl Drop for OpenModule {
    fn drop(self) {
        let _accepted = self.into_box();
    }
}
