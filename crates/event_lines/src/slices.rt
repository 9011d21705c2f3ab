//! The lines of an event, which are said as they come.

ghost use Rattle.std.specs.Prelude.{◌≡◌, ◌≤◌, ◌++◌, [], Ok, ℕ, List, drop, length, take, true, false, IfOk, MatchResult};
ghost use Rattle.ui_machine.specs.State.Config.{World};
ghost use Rattle.ui_machine.specs.State.Tasks.{Event};
ghost use Rattle.native_peers.specs.Seen.{SameRelations};
ghost use Rattle.ui_engine.specs.SessionView.{ComesOn, without_lines};
ghost use Rattle.event_lines.specs.Slices.{Follows, IsBegun};
ghost use Rattle.event_lines.specs.Texts.{lines_text, stopped_line};
ghost use Rattle.event_lines.specs.Writing.{Puts};

use crate::devices::Writer;
use crate::line_outcome::LineOutcome;
use crate::output_buffer::Gather;
use crate::writing::{put_lines, put_stopped};
use native_peers::Peers;
use ui_engine::{Progress, Session};
use ui_machine::DeviceFault;

/// The number of counted steps that an event makes between two times that its lines are said.
const SLICE_STEPS: u64 = 64;

// Says the lines of a session after the first `known`, and makes the session forget all its lines.
fn put_new<P: Peers, W: Writer>(
    session: &mut Session<P>,
    known: usize,
    gather: &mut Gather,
    writer: &mut W,
) -> Result<(), DeviceFault>
    requires known { known ≤ length session.now.core.world.transcript }
    requires works { W.failed writer.old ≡ false }
    ensures puts { Puts result (W.sent writer.old) gather.old (W.sent writer.new) gather.new (lines_text (drop known session.old.core.world.transcript)) }
    ensures marks { MatchResult result (λ _. W.failed writer.new ≡ false) (λ _. W.failed writer.new ≡ true) }
    ensures forgets { session.new.core ≡ without_lines session.old.core }
    ensures pool { session.new.pool ≡ session.old.pool }
{
    let put = put_lines(gather, writer, &session.transcript()[known..]);
    session.forget();
    put
}

// Says the last lines of an event that stopped, and then that it stopped.
fn stop<P: Peers, W: Writer>(
    session: &mut Session<P>,
    number: u64,
    gather: &mut Gather,
    writer: &mut W,
) -> Result<LineOutcome, DeviceFault>
    requires works { W.failed writer.old ≡ false }
    ensures puts { Puts result (W.sent writer.old) gather.old (W.sent writer.new) gather.new (lines_text session.old.core.world.transcript ++ stopped_line number) }
    ensures is { IfOk result (λ outcome. outcome ≡ LineOutcome.Stopped) }
    ensures marks { MatchResult result (λ _. W.failed writer.new ≡ false) (λ _. W.failed writer.new ≡ true) }
    ensures forgets { session.new.core ≡ without_lines session.old.core }
    ensures pool { session.new.pool ≡ session.old.pool }
{
    put_new(session, 0, gather, writer)?;
    put_stopped(gather, writer, number)?;
    Ok(LineOutcome::Stopped)
}

/// Goes on with the event of a line until it has ended, and says its lines as they come, beginning with those of the session after the
/// first `known`. Once the writer has failed no step of the event is made any more.
///
/// # Errors
///
/// `DeviceFault` if a device fails. It is not called again.
pub fn follow<P: Peers, W: Writer>(
    session: &mut Session<P>,
    begun: Progress,
    known: usize,
    number: u64,
    gather: &mut Gather,
    writer: &mut W,
) -> Result<LineOutcome, DeviceFault>
    requires known { known ≤ length session.now.core.world.transcript }
    requires works { W.failed writer.old ≡ false }
    requires begun { IsBegun begun (P.relations session.now.pool) (P.seen session.now.pool) session.now.core }
    ensures follows { (event : Event) (w : World) → ComesOn (Ok begun) (P.relations session.old.pool) session.old.core.definition event w [] (P.seen session.old.pool) session.old.core →
        Follows (P.relations session.old.pool) session.old.core.definition event w (take known session.old.core.world.transcript) number result (W.sent writer.old) gather.old (W.sent writer.new) gather.new (P.seen session.new.pool) session.new.core }
    ensures marks { MatchResult result (λ _. W.failed writer.new ≡ false) (λ _. W.failed writer.new ≡ true) }
    ensures same { SameRelations (P.relations session.old.pool) (P.relations session.new.pool) }
{
    let mut progress = begun;
    let mut known = known;
    'slices: loop {
        put_new(session, known, gather, writer)?;
        known = 0;
        let course = match progress {
            Progress::UnderWay(course) => course,
            Progress::Ended(_) => return Ok(LineOutcome::Said),
        };
        match session.advance(course, SLICE_STEPS) {
            Ok(next) => progress = next,
            Err(_) => return stop(session, number, gather, writer),
        }
    }
}
