//! A worked session: it meets what going on with an event asks.

ghost use Rattle.worked.specs.Sessions.InTurn.{MetInTurn};

/// A session is in the middle of a turn: the dispatch of the first source has counted a step, and the second source is left. So it meets what
/// `Session::advance` asks.
pub fn turn()
    ensures { MetInTurn }
{}
