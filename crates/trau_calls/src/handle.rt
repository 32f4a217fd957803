//! A call as a C program holds it.

ghost use Rattle.std.specs.Prelude.{◌≡◌, Option, Some, None};
ghost use Rattle.std.specs.Global.{Global};
ghost use Rattle.rtp_call.specs.declared.call.Call.{Call};
ghost use Rattle.rtp_call.specs.Call.{IsReady};
ghost use Rattle.trau_calls.specs.Held.{held};
ghost use Rattle.trau_calls.specs.Begun.{IsBegun};

use crate::parts::Parts;
use rtp_call::Call;
use std::alloc::Global;
use std::marker::{Model, Send};

/// A call on the heap, if the handle has one. C sees one pointer.
#[repr(C)]
pub struct Handle {
    pub(crate) state: *mut Call,
    pub(crate) ghost heap: { Global },
    pub ghost call: { Option Call },
}

impl Model for Handle {
    ghost also_owns = { λ h. held h.heap h.state h.call };
}

// What it owns is plain data, in a block that any thread may free.
unsafe impl Send for Handle {}

impl Handle {
    /// Takes the call out.
    pub(crate) fn take(&mut self, heap: Global) -> Parts<Call, Global>
        requires { IsBegun self.old.call }
        ensures { (self.old.call ≡ Some result.value) × (IsReady result.value) × (self.new.call ≡ None) }
    {
        let ptr = self.state;
        Parts { ptr, alloc: heap }
    }

    /// Puts a call into a handle that has none.
    pub(crate) fn put(&mut self, call: Parts<Call, Global>)
        requires { self.old.call ≡ None }
        ensures { self.new.call ≡ Some call.value }
    {
        let Parts { ptr, alloc: _ } = call;
        self.state = ptr;
    }
}
