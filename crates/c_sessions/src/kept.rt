//! The content of a handle: the place of a session, of which C knows no more than the address, or nothing.

ghost use Rattle.std.specs.Prelude.{◌≡◌, Option, None, Some};
ghost use Rattle.c_sessions.specs.Held.{held};
ghost use Rattle.c_sessions.specs.declared.hosted_session.HostedSession.{HostedSession};

use crate::hosted_session::HostedSession;
use crate::loose::Loose;
use std::alloc::Global;
use std::marker::Model;
use std::ptr;

/// The place of a session that it owns, or nothing. It has to be emptied before it is let go.
#[repr(C)]
pub struct Kept {
    at: *mut u8,
    pub ghost session: { Option HostedSession },
}

impl Model for Kept {
    ghost also_owns = { λ k. held k.at k.session };
}

impl Kept {
    /// Creates the content of a handle without a session.
    pub(crate) fn nothing() -> Kept
        ensures { result.session ≡ None }
    {
        Kept {
            at: ptr::null_mut(),
        }
    }

    /// Keeps the place of a session.
    pub(crate) fn of(session: Box<HostedSession>) -> Kept
        ensures { result.session ≡ Some session.value }
    {
        Kept::seal(Loose::of(session))
    }

    /// Returns the session in its box.
    pub(crate) fn into_box(self, alloc: Global) -> Box<HostedSession>
        requires { (session : HostedSession) × (self.session ≡ Some session) }
        ensures { Some result.value ≡ self.session }
    {
        self.unseal(alloc).into_box()
    }

    /// Takes the content apart, which has to be nothing.
    pub(crate) fn discard(self)
        requires { self.session ≡ None }
    {
        let Kept { at: _ } = self;
    }

    // Keeps a session under a type that hides its own from C.
    fn seal(session: Loose<HostedSession, Global>) -> Kept
        ensures { result.session ≡ Some session.value }
    {
        let Loose { at, alloc: _ } = session;
        Kept { at: at as *mut u8 }
    }

    // Returns the session, which this allocator will free. Each allocator frees what another one has given.
    fn unseal(self, alloc: Global) -> Loose<HostedSession, Global>
        requires { (session : HostedSession) × (self.session ≡ Some session) }
        ensures { Some result.value ≡ self.session }
    {
        let Kept { at } = self;
        Loose {
            at: at as *mut HostedSession,
            alloc,
        }
    }
}
