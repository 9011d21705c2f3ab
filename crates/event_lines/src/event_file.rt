//! The lines of the event file, from the first to the one that ends the run.

ghost use Rattle.std.specs.Prelude.{◌≡◌, ◌≢◌, ◌≤◌, ℕ, List, true, ◌||◌, IfOk, IfSome, MatchResult, false};
ghost use Rattle.native_peers.specs.Seen.{SameRelations};
ghost use Rattle.ui_engine.specs.SessionView.{state_at, without_lines};
ghost use Rattle.ui_machine.specs.Limits.{most_lines};
ghost use Rattle.event_lines.specs.Lines.{lines_of};
ghost use Rattle.event_lines.specs.EventFileRun.{EventFileRun, ends};
ghost use Rattle.event_lines.specs.Events.{event_replies};
ghost use Rattle.event_lines.specs.LineOutcome.{outcome_with};
ghost use Rattle.event_lines.specs.Telling.{Tells};
ghost use Rattle.event_lines.specs.Writing.{Sends};

use crate::chunk::Chunk;
use crate::devices::{Reader, Writer};
use crate::line_outcome::{LineOutcome, LineStart, start_line};
use crate::line_reader::{Found, LineReader};
use crate::output_buffer::Gather;
use crate::slices::follow;
use crate::writing::put_outcome;
use builder_defs::EventReader;
use native_peers::Peers;
use std::alloc::Global;
use ui_engine::Session;
use ui_machine::DeviceFault;

// Hands the line that was found to the session, and says what came of it.
fn tell<P: Peers, W: Writer>(
    alloc: Global,
    session: &mut Session<P>,
    events: &mut EventReader,
    number: u64,
    found: Found,
    buffer: &[u8],
    gather: &mut Gather,
    writer: &mut W,
) -> Result<LineOutcome, DeviceFault>
    requires writer { W.failed writer.old ≡ false }
    ensures tells { Tells (P.relations session.old.pool) (state_at (P.seen session.old.pool) session.old.core) number found buffer.now result
        (W.sent writer.old) gather.old (W.sent writer.new) gather.new (state_at (P.seen session.new.pool) session.new.core) }
    ensures goes_on { IfOk result (λ outcome. (said : List (List ℕ)) → ends (outcome_with outcome said) ≡ false → (number ≤ most_lines) × (found ≡ Found.Whole)) }
    ensures marks { MatchResult result (λ _. W.failed writer.new ≡ false) (λ _. W.failed writer.new ≡ true) }
    ensures same { SameRelations (P.relations session.old.pool) (P.relations session.new.pool) }
{
    let known = session.transcript().len();
    match start_line(alloc, session, events, number, found, buffer) {
        LineStart::Begun(progress) => follow(session, progress, known, number, gather, writer),
        LineStart::Over(outcome) => {
            let said = &session.transcript()[known..];
            let put = put_outcome(gather, writer, number, outcome, said);
            session.forget();
            put?;
            Ok(outcome)
        }
    }
}

/// Hands the lines of a reader to a session, and says what comes of them. Returns the status: 0, or 5 if a line was refused, 3 if the run
/// stopped within a line, and 4 if a device failed. Before each read, and at the end, all that was said is written. After a fault nothing
/// is read or written.
pub fn handle_lines<P: Peers, R: Reader, W: Writer>(
    alloc: Global,
    session: &mut Session<P>,
    reader: &mut R,
    gather: &mut Gather,
    writer: &mut W,
) -> u8
    requires reader { R.failed reader.old ≡ false }
    requires writer { W.failed writer.old ≡ false }
    ensures file_run { (input : List ℕ) × IfSome (R.left reader.old) (λ known. known ≡ input) × (text : List ℕ) ×
        EventFileRun (event_replies (P.relations session.old.pool)) without_lines (state_at (P.seen session.old.pool) session.old.core)
        gather.old (lines_of input) result (W.failed writer.new)
        (reader.new ≡ reader.old) (R.left reader.old) (R.left reader.new) text (state_at (P.seen session.new.pool) session.new.core)
        × Sends (R.reads reader.old) (R.reads reader.new) (W.sent writer.old) (W.sent writer.new) text }
    ensures failed { result ≡ 4 → (R.failed reader.new || W.failed writer.new) ≡ true }
    ensures works { result ≢ 4 → (R.failed reader.new ≡ false) × (W.failed writer.new ≡ false) }
    ensures same { SameRelations (P.relations session.old.pool) (P.relations session.new.pool) }
{
    let mut lines = LineReader {
        chunk: Chunk::new(),
        line: Vec::new(alloc),
    };
    let mut events = EventReader::new(alloc);
    let mut status = 0;
    let mut number = 1;
    loop {
        let Ok(next) = lines.next_line(reader, gather, writer) else {
            return 4;
        };
        let Some(found) = next else {
            return gather.finish(writer, status);
        };
        let line = lines.line.as_slice();
        let Ok(outcome) = tell(
            alloc,
            session,
            &mut events,
            number,
            found,
            line,
            gather,
            writer,
        ) else {
            return 4;
        };
        status = outcome.status_after(status);
        if outcome.ends() {
            return gather.finish(writer, status);
        }
        number += 1;
    }
}
