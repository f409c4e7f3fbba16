//! A session behind a handle that C keeps.

ghost use Rattle.std.specs.Prelude.{◌≡◌, true, false, Option, Some, None, is_some, option_map};
ghost use Rattle.std.specs.Coded.{coded_option};
ghost use Rattle.zugrenja_c.specs.declared.session.Session.{Session};
ghost use Rattle.zugrenja_c.specs.contracts.session.Session.{the_row};

use crate::raw_box::RawBox;
use crate::session::Session;
use std::alloc::Global;
use std::marker::Model;
use std::{mem, ptr};

/// A place for a boxed session, or for none.
#[repr(C)]
pub struct Slot {
    at: *mut u8,
    alloc: Global,
    pub ghost value: { Option Session } by { coded_option the_row.coded },
}

impl Model for Slot {
    ghost use Rattle.zugrenja_c.specs.Held.{held};

    ghost also_owns = { λ s. held s.alloc s.at s.value };
}

impl Slot {
    /// A slot of no session.
    pub fn empty(alloc: Global) -> Slot
        ensures { result.value ≡ None }
    {
        Slot {
            at: ptr::null_mut(),
            alloc,
        }
    }

    /// A slot of the session of a box.
    pub fn of_raw(raw: RawBox<Session, Global>) -> Slot
        ensures { result.value ≡ Some raw.value }
    {
        let RawBox { at, alloc } = raw;
        Slot {
            at: at as *mut u8,
            alloc,
        }
    }

    /// The box of the session.
    pub fn into_raw(self) -> RawBox<Session, Global>
        requires { is_some self.value ≡ true }
        ensures { Some result.value ≡ self.value }
    {
        let Slot { at, alloc } = self;
        RawBox {
            at: at as *mut Session,
            alloc,
        }
    }

    /// Lets a slot of no session go.
    pub fn forget(self)
        requires { self.value ≡ None }
    {
        let Slot { at: _, alloc: _ } = self;
    }
}

/// A handle: C starts with zeros, and changes nothing in it.
#[repr(C)]
pub struct Handle {
    slot: Slot,
    live: bool,
    ghost agrees: { live ≡ is_some slot.value },
}

impl Handle {
    /// Whether there is a session.
    pub fn is_live(&self) -> bool
        ensures { result ≡ is_some self.now.slot.value }
    {
        self.live
    }

    /// Takes the session out, if there is one.
    pub fn take(&mut self, alloc: Global) -> Option<Box<Session>>
        ensures taken { self.old.slot.value ≡ option_map (λ session. session.value) result }
        ensures after { self.new.slot.value ≡ None }
    {
        let none = Handle {
            slot: Slot::empty(alloc),
            live: false,
        };
        let Handle { slot, live } = mem::replace(self, none);
        if live {
            Some(slot.into_raw().into_box())
        } else {
            slot.forget();
            None
        }
    }

    /// Puts a session in.
    pub fn put(&mut self, session: Box<Session>)
        requires { self.old.slot.value ≡ None }
        ensures { self.new.slot.value ≡ Some session.value }
    {
        let some = Handle {
            slot: Slot::of_raw(RawBox::of(session)),
            live: true,
        };
        let Handle { slot, live: _ } = mem::replace(self, some);
        slot.forget();
    }
}
