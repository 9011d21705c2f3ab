//! When a turn of a session has something to run next.

ghost use Rattle.std.specs.Prelude.{◌≡◌};
ghost use Rattle.ui_engine.specs.Due.{IsNextDue};
ghost use Rattle.c_sessions.specs.Moments.{code_of_due, moment_told};

use crate::hosted_session::HostedSession;
use ui_engine::NextDue;

impl HostedSession {
    /// Returns when a turn has something to run next, if no event comes before it.
    pub fn next_due(&self) -> NextDue
        ensures { IsNextDue self.now.running.core.world result }
    {
        self.running.session().next_due()
    }
}

/// Returns the number that C is given for when something is due, and writes the moment where there is one: 0 is never, 1 is at once, and 2 is
/// at a moment. Nothing is ever due in a session that is not there.
pub fn tell_due(due: Option<NextDue>, moment: &mut u64) -> u8
    ensures code { result ≡ code_of_due due }
    ensures moment { moment.new ≡ moment_told due moment.old }
{
    match due {
        None | Some(NextDue::Never) => 0,
        Some(NextDue::Now) => 1,
        Some(NextDue::At(first)) => {
            *moment = first;
            2
        }
    }
}
