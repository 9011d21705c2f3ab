//! The lines of a session, taken as a stream of bytes.

ghost use Rattle.std.specs.Prelude.{◌≡◌, ◌++◌, ◌<◌, [], ◌∷◌, IfNone, IfSome, drop, length, min, take};
ghost use Rattle.ui_engine.specs.SessionView.{without_lines};
ghost use Rattle.c_sessions.specs.Courses.{FromWherever, HasComeStill};
ghost use Rattle.c_sessions.specs.Reached.{held};
ghost use Rattle.c_sessions.specs.Unread.{unread};

use crate::hosted_session::HostedSession;

impl HostedSession {
    /// Takes bytes of the lines that were said, each line with its LF, from where the last call ended. Returns how many: as many as there
    /// is room for, or all that are left. The rest of the buffer is unchanged. A call that leaves room clears the lines.
    pub fn take_lines(&mut self, out: &mut [u8]) -> usize
        ensures count { result ≡ min (length out.old) (length (unread self.old)) }
        ensures bytes { out.new ≡ take result (unread self.old) ++ drop result out.old }
        ensures left { unread self.new ≡ drop result (unread self.old) }
        ensures session { without_lines (held self.new) ≡ without_lines (held self.old) }
        ensures cleared { result < length out.old → held self.new ≡ without_lines (held self.old) }
        // An event that is under way can still go on.
        ensures course { self.new.running.course ≡ self.old.running.course }
        ensures under_way { FromWherever self.old.running (λ event w front steps. HasComeStill event w front steps self.old.running self.new.running) }
    {
        'room: for place in 0..out.len() {
            let Some(byte) = self.next_byte() else {
                self.forget();
                return place;
            };
            out[place] = byte;
        }
        out.len()
    }

    // Takes the next byte of the lines, if one is left.
    fn next_byte(&mut self) -> Option<u8>
        ensures byte { IfSome result (λ byte. unread self.old ≡ byte ∷ unread self.new) }
        ensures none { IfNone result ((unread self.old ≡ []) × (self.new ≡ self.old)) }
        ensures running { self.new.running ≡ self.old.running }
    {
        let line = self.running.transcript().get(self.line)?.as_bytes();
        match line.get(self.byte) {
            Some(byte) => {
                let byte = *byte;
                self.byte += 1;
                Some(byte)
            }
            None => {
                self.line += 1;
                self.byte = 0;
                Some(b'\n')
            }
        }
    }

    // Clears the lines, all of which have to be taken.
    fn forget(&mut self)
        requires { unread self.now ≡ [] }
        ensures unread { unread self.new ≡ [] }
        ensures session { held self.new ≡ without_lines (held self.old) }
        ensures course { self.new.running.course ≡ self.old.running.course }
        ensures under_way { FromWherever self.old.running (λ event w front steps. HasComeStill event w front steps self.old.running self.new.running) }
    {
        self.running.forget();
        self.line = 0;
        self.byte = 0;
    }
}
