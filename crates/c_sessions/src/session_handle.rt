//! The handle by which C holds a session.

ghost use Rattle.std.specs.Prelude.{◌≡◌, ℕ, List, [], IfSome, None, Some, option_map};
ghost use Rattle.c_sessions.specs.Held.{is_kept};
ghost use Rattle.c_sessions.specs.Keeping.{KeepsEnding};
ghost use Rattle.c_sessions.specs.Limited.{BeginsWithin, EndedWithin, EndsWithin};
ghost use Rattle.c_sessions.specs.Moments.{TellsNext};
ghost use Rattle.c_sessions.specs.Starting.{StartsAs};
ghost use Rattle.c_sessions.specs.Told.{Finds, FindsNext, Tells, class_told, number_of, object_told, value_told};
ghost use Rattle.c_sessions.specs.Handles.{AdvancesAs, BeginsAs, Dispatches, FailsAs, KeepsAs, Starts, Takes, status_of_part};

use crate::buffers::write_text;
use crate::faults::HostedFault;
use crate::hosted_session::HostedSession;
use crate::kept::Kept;
use crate::readings::tell_text;
use crate::starts::{LimitedStart, Started, start, start_within};
use crate::status::Status;
use std::alloc::Global;
use std::mem;
use ui_engine::{NextDue, SessionFault};
use ui_machine::ObjectId;

/// A handle that holds a session, or none. For C it is a struct of a truth value and an address. C neither reads nor writes them, except
/// for the zero bytes with which a handle without a session begins.
#[repr(C)]
pub struct SessionHandle {
    is_open: bool,
    pub kept: Kept,
    ghost agrees: { is_open ≡ is_kept kept.session },
}

impl SessionHandle {
    /// Creates a handle without a session.
    pub fn closed() -> SessionHandle
        ensures { result.kept.session ≡ None }
    {
        SessionHandle {
            is_open: false,
            kept: Kept::nothing(),
        }
    }

    /// Starts a session from the bytes of a definition. A session that the handle had is given up. The handle has the new session then,
    /// even if its build stopped. It has none if the definition is refused, or if memory is refused before the build or for the session's
    /// box. The refusal of a definition is written as `write_text` does, and otherwise an empty text.
    pub fn start(&mut self, alloc: Global, definition: &[u8], refusal: &mut [u8]) -> Status
        ensures { Starts definition.now refusal.old result self.new.kept.session refusal.new }
    {
        drop(self.take(alloc));
        self.keep_started(alloc, start(alloc, definition), refusal)
    }

    /// Like `start`, for a definition of which no dispatch may count more steps than `most`. Nothing is built of one that is not: it is
    /// refused as `StepLimit`.
    pub fn start_within(
        &mut self,
        alloc: Global,
        definition: &[u8],
        most: u64,
        refusal: &mut [u8],
    ) -> Status
        ensures { EndsWithin definition.now most refusal.old result self.new.kept.session refusal.new }
    {
        drop(self.take(alloc));
        match start_within(alloc, definition, most) {
            LimitedStart::Within(started) => self.keep_started(alloc, started, refusal),
            LimitedStart::Beyond => {
                write_text(refusal, b"StepLimit");
                Status::DefinitionRefused
            }
        }
    }

    // Keeps the session that a start came to, if it came to one, and writes the refusal of its definition.
    fn keep_started(&mut self, alloc: Global, started: Started, refusal: &mut [u8]) -> Status
        requires { self.now.kept.session ≡ None }
        ensures starts { (bytes : List ℕ) → StartsAs bytes started → Starts bytes refusal.old result self.new.kept.session refusal.new }
        ensures within { (bytes : List ℕ) → (most : ℕ) → BeginsWithin bytes most started → EndedWithin bytes most result self.new.kept.session }
    {
        match started {
            Started::Built(session) => {
                write_text(refusal, b"");
                self.keep(alloc, session, Status::Done)
            }
            Started::Stopped(session) => {
                write_text(refusal, b"");
                self.keep(alloc, session, Status::Stopped)
            }
            Started::Refused(text) => {
                write_text(refusal, text.as_bytes());
                Status::DefinitionRefused
            }
            Started::Unbegun => {
                write_text(refusal, b"");
                Status::Stopped
            }
        }
    }

    /// Makes the session carry out an event line. The name of a refusal is written as `write_text` does, and otherwise an empty text.
    pub fn dispatch(&mut self, alloc: Global, line: &[u8], refusal: &mut [u8]) -> Status
        ensures ends { Dispatches line.now refusal.old self.old.kept.session result self.new.kept.session refusal.new }
        ensures keeps { KeepsEnding line.now self.old.kept.session result }
    {
        let Some(mut session) = self.take(alloc) else {
            write_text(refusal, b"");
            return Status::NoSession;
        };
        if session.is_under_way() {
            self.put(alloc, session);
            write_text(refusal, b"");
            return Status::Busy;
        }
        let outcome = session.dispatch_line(alloc, line);
        self.put(alloc, session);
        match outcome {
            Ok(()) => {
                write_text(refusal, b"");
                Status::Done
            }
            Err(fault) => report(fault, refusal),
        }
    }

    /// Makes the session begin the event of a line. If the event has more to do than its beginning it is under way then, and `advance` goes
    /// on with it. The refusal is written as `dispatch` writes it.
    pub fn begin(&mut self, alloc: Global, line: &[u8], refusal: &mut [u8]) -> Status
        ensures ends { BeginsAs line.now refusal.old self.old.kept.session result self.new.kept.session refusal.new }
        ensures keeps { KeepsEnding line.now self.old.kept.session result }
    {
        let Some(mut session) = self.take(alloc) else {
            write_text(refusal, b"");
            return Status::NoSession;
        };
        if session.is_under_way() {
            self.put(alloc, session);
            write_text(refusal, b"");
            return Status::Busy;
        }
        let outcome = session.begin_line(alloc, line);
        let goes_on = session.is_under_way();
        self.put(alloc, session);
        match outcome {
            Ok(()) => {
                write_text(refusal, b"");
                status_of_part(Ok(()), goes_on)
            }
            Err(fault) => report(fault, refusal),
        }
    }

    /// Goes on with the event that is under way for at most `most` counted steps, as `HostedSession::advance` does.
    pub fn advance(&mut self, alloc: Global, most: u64) -> Status
        ensures { AdvancesAs most self.old.kept.session result self.new.kept.session }
    {
        let Some(mut session) = self.take(alloc) else {
            return Status::NoSession;
        };
        if !session.is_under_way() {
            self.put(alloc, session);
            return Status::AtRest;
        }
        let result = session.advance(most);
        let goes_on = session.is_under_way();
        self.put(alloc, session);
        status_of_part(result, goes_on)
    }

    /// Returns when a turn of the session has something to run next, if no event comes before it. A handle without a session has nothing
    /// to run.
    pub fn next_due(&mut self, alloc: Global) -> Option<NextDue>
        ensures { TellsNext self.old.kept.session result self.new.kept.session }
    {
        let session = self.take(alloc)?;
        let due = session.next_due();
        self.put(alloc, session);
        Some(due)
    }

    /// Takes bytes of the session's lines as `HostedSession::take_lines` does, and returns how many. A handle without a session has none.
    pub fn take_lines(&mut self, alloc: Global, out: &mut [u8]) -> usize
        ensures { Takes out.old self.old.kept.session result self.new.kept.session out.new }
    {
        let Some(mut session) = self.take(alloc) else {
            return 0;
        };
        let count = session.take_lines(out);
        self.put(alloc, session);
        count
    }

    /// Returns the lowest identity of an object that lives, from this one on, or 0 if there is none. No identity is 0.
    pub fn next_object(&mut self, alloc: Global, from: u64) -> u64
        ensures { FindsNext from self.old.kept.session result self.new.kept.session }
    {
        let Some(session) = self.take(alloc) else {
            return 0;
        };
        let next = session.next_object(ObjectId(from));
        self.put(alloc, session);
        number_of(next)
    }

    /// Returns the identity of the document's object with this id, while the builder holds it, and otherwise 0.
    pub fn identity(&mut self, alloc: Global, id: &[u8]) -> u64
        ensures { Finds id.now self.old.kept.session result self.new.kept.session }
    {
        let Some(session) = self.take(alloc) else {
            return 0;
        };
        let identity = session.identity(id);
        self.put(alloc, session);
        number_of(identity)
    }

    /// Writes an object as JSON, as much as there is room for, and returns the whole length. It is 0 if the object does not live, or if memory
    /// is refused.
    pub fn describe(&mut self, alloc: Global, object: u64, out: &mut [u8]) -> usize
        ensures { Tells (object_told object) self.old.kept.session out.old result self.new.kept.session out.new }
    {
        let Some(session) = self.take(alloc) else {
            write_text(out, b"");
            return 0;
        };
        let text = session.object_text(alloc, ObjectId(object));
        self.put(alloc, session);
        tell_text(text, out)
    }

    /// Writes the value of an object's property as JSON, as much as there is room for, and returns the whole length. It is 0 if the object does
    /// not live or has no such property, or if memory is refused.
    pub fn get(&mut self, alloc: Global, object: u64, property: &[u8], out: &mut [u8]) -> usize
        ensures { Tells (value_told object property.now) self.old.kept.session out.old result self.new.kept.session out.new }
    {
        let Some(session) = self.take(alloc) else {
            write_text(out, b"");
            return 0;
        };
        let text = session.value_text(alloc, ObjectId(object), property);
        self.put(alloc, session);
        tell_text(text, out)
    }

    /// Writes a class of the session's definition as JSON, as much as there is room for, and returns the whole length. It is 0 if no class has
    /// this name, or if memory is refused.
    pub fn class(&mut self, alloc: Global, name: &[u8], out: &mut [u8]) -> usize
        ensures { Tells (class_told name.now) self.old.kept.session out.old result self.new.kept.session out.new }
    {
        let Some(session) = self.take(alloc) else {
            write_text(out, b"");
            return 0;
        };
        let text = session.class_text(alloc, name);
        self.put(alloc, session);
        tell_text(text, out)
    }

    /// Ends the session and frees it, if there is one.
    pub fn finish(&mut self, alloc: Global)
        ensures { self.new.kept.session ≡ None }
    {
        drop(self.take(alloc));
    }

    // Keeps a session that has started with this status, if there is memory for it, and returns the status of the call.
    fn keep(&mut self, alloc: Global, session: HostedSession, status: Status) -> Status
        requires { self.now.kept.session ≡ None }
        ensures { KeepsAs session status result self.new.kept.session }
    {
        let Some(session) = boxed(alloc, session) else {
            return Status::Stopped;
        };
        self.put(alloc, session);
        status
    }

    // Takes the session out, if there is one.
    fn take(&mut self, alloc: Global) -> Option<Box<HostedSession>>
        ensures taken { option_map (λ session. session.value) result ≡ self.old.kept.session }
        ensures closed { self.new.kept.session ≡ None }
    {
        let taken = mem::replace(self, SessionHandle::closed());
        taken.into_session(alloc)
    }

    // Puts a session in. A session that the handle had is given up.
    fn put(&mut self, alloc: Global, session: Box<HostedSession>)
        ensures { self.new.kept.session ≡ Some session.value }
    {
        let open = SessionHandle {
            is_open: true,
            kept: Kept::of(session),
        };
        let before = mem::replace(self, open);
        drop(before.into_session(alloc));
    }

    /// Returns the session, if there is one. A program in Rattle takes a handle apart by this call before it lets the handle go.
    pub fn into_session(self, alloc: Global) -> Option<Box<HostedSession>>
        ensures { option_map (λ session. session.value) result ≡ self.kept.session }
    {
        let SessionHandle { is_open, kept } = self;
        if is_open {
            return Some(kept.into_box(alloc));
        }
        kept.discard();
        None
    }
}

// Puts a value in a box, if there is memory for it.
fn boxed<T: Drop>(alloc: Global, value: T) -> Option<Box<T>>
    ensures { IfSome result (λ boxed. boxed.value ≡ value) }
{
    match Box::new(alloc, value) {
        Ok(boxed) => Some(boxed),
        Err(_) => None,
    }
}

// Returns the number of an identity, or 0.
fn number_of(id: Option<ObjectId>) -> u64
    ensures { result ≡ number_of id }
{
    match id {
        Some(id) => id.0,
        None => 0,
    }
}

// Returns the status of a part of an event, which goes on or not.
fn status_of_part(part: Result<(), SessionFault>, goes_on: bool) -> Status
    ensures { result ≡ status_of_part part goes_on }
{
    match part {
        Ok(()) if goes_on => Status::UnderWay,
        Ok(()) => Status::Done,
        Err(_) => Status::Stopped,
    }
}

// Returns the status for a fault. The name of the refusal of a line is written, and otherwise an empty text.
fn report(fault: HostedFault, refusal: &mut [u8]) -> Status
    ensures { FailsAs fault refusal.old result refusal.new }
{
    match fault {
        HostedFault::Refused(why) => {
            write_text(refusal, why.name().as_bytes());
            Status::LineRefused
        }
        HostedFault::NoMemory => {
            write_text(refusal, b"");
            Status::NoMemory
        }
        HostedFault::Stopped => {
            write_text(refusal, b"");
            Status::Stopped
        }
    }
}
