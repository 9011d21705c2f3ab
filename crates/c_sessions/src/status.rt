//! The status with which a call of C ends.

ghost use Rattle.std.specs.Prelude.{◌≡◌};
ghost use Rattle.c_sessions.specs.Statuses.{code_of};

/// The status of a call. The numbers up to 5 are those with which `ui run` ends, where 2 is for a handle without a session.
#[derive(Clone, Copy, Debug, PartialEq, Eq)]
pub enum Status {
    /// The call did what it was asked.
    Done,
    /// The definition is refused, and there is no session.
    DefinitionRefused,
    /// The handle has no session.
    NoSession,
    /// Memory was refused, now or before. The session, if there is one, has stopped, and carries nothing out any more.
    Stopped,
    /// The line is refused, and the session goes on as it was.
    LineRefused,
    /// The event is under way: it has more to do.
    UnderWay,
    /// Another event is under way, and nothing was done.
    Busy,
    /// Memory was refused while the line was read. Nothing was done, and the session goes on as it was.
    NoMemory,
    /// No event is under way, and nothing was done.
    AtRest,
}

impl Status {
    /// Returns the number that C is given.
    pub fn code(self) -> u8
        ensures { result ≡ code_of self }
    {
        match self {
            Status::Done => 0,
            Status::DefinitionRefused => 1,
            Status::NoSession => 2,
            Status::Stopped => 3,
            Status::LineRefused => 5,
            Status::UnderWay => 6,
            Status::Busy => 7,
            Status::NoMemory => 8,
            Status::AtRest => 9,
        }
    }
}
