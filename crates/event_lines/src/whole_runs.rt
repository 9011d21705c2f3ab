//! A whole run, which takes a definition, a pool of peers and events, and gives a transcript and a status.

ghost use Rattle.std.specs.Prelude.{◌≡◌, ◌≢◌, codes, ℕ, List, map, string_bytes, [], ◌∷◌, ◌++◌, true, ◌||◌, IfSome, OnErr, MatchResult, false};
ghost use Rattle.builder_defs.specs.Denoted.{denoted};
ghost use Rattle.native_peers.specs.Matching.{as_peers};
ghost use Rattle.native_peers.specs.Seen.{SameRelations};
ghost use Rattle.ui_engine.specs.SessionView.{state_at, without_lines};
ghost use Rattle.event_lines.specs.CheckView.{IsJudged};
ghost use Rattle.event_lines.specs.EventFileRun.{EventFileRun};
ghost use Rattle.event_lines.specs.Events.{event_replies};
ghost use Rattle.event_lines.specs.Lines.{lines_of};
ghost use Rattle.event_lines.specs.Texts.{joined, lines_text, nothing_begun, build_stopped};
ghost use Rattle.event_lines.specs.Writing.{Sends, Puts, IsMarked};
ghost use Rattle.event_lines.specs.Opening.{Concludes, Ran};

use crate::definition_checks::{Judgement, judge};
use crate::devices::{Reader, Writer};
use crate::event_file::handle_lines;
use crate::output_buffer::Gather;
use crate::session_start::{Opening, open};
use crate::writing::{put_lines, put_parts};
use native_peers::{Peers, Vacant};
use std::alloc::Global;
use std::mem;
use ui_engine::Session;
use ui_machine::DeviceFault;

/// Verifies a definition, runs it with the peers of a pool over the event lines of a reader, and writes the transcript as it grows. Returns
/// the status: 0, or 1 if the definition is refused or the pool does not match it, 3 if memory is refused, 4 if a device fails, and 5 if a
/// line was refused. The first of 1, 3 and 4 ends the run. All that was said is written before anything is read. Nothing is read if the
/// definition is refused or not built. At the end each peer that an object has got is closed. If nothing was begun the pool is left as it
/// was.
pub fn run<P: Peers + Vacant, R: Reader, W: Writer>(
    alloc: Global,
    definition: &[u8],
    pool: &mut P,
    reader: &mut R,
    writer: &mut W,
) -> u8
    requires reader { R.failed reader.old ≡ false }
    requires writer { W.failed writer.old ≡ false }
    // If the reader's bytes are not known, there are some bytes for which this holds.
    ensures ran { (input : List ℕ) × IfSome (R.left reader.old) (λ known. known ≡ input) × (text : List ℕ) ×
        Ran (P.relations pool.old) (as_peers (P.seen pool.old)) (P.seen pool.new)
        definition.now (lines_of input) result (W.failed writer.new)
        (reader.new ≡ reader.old) (R.left reader.old) (R.left reader.new) text
        × Sends (R.reads reader.old) (R.reads reader.new) (W.sent writer.old) (W.sent writer.new) text }
    ensures unread { OnErr (denoted definition.now) (reader.new ≡ reader.old) }
    ensures failed { result ≡ 4 → (R.failed reader.new || W.failed writer.new) ≡ true }
    ensures works { result ≢ 4 → (R.failed reader.new ≡ false) × (W.failed writer.new ≡ false) }
    ensures same { SameRelations (P.relations pool.old) (P.relations pool.new) }
{
    let taken = mem::replace(pool, P::vacant(alloc));
    let Over { status, pool: left } = run_with(alloc, definition, taken, reader, writer);
    *pool = left;
    status
}

/// The outcome of a run: its status, and the pool that is left.
#[derive(Drop)]
pub struct Over<P> {
    pub status: u8,
    pub pool: P,
}

/// Runs a definition as [`run`] does, with a pool that is handed over, and handed back with the status.
pub fn run_with<P: Peers, R: Reader, W: Writer>(
    alloc: Global,
    definition: &[u8],
    pool: P,
    reader: &mut R,
    writer: &mut W,
) -> Over<P>
    requires reader { R.failed reader.old ≡ false }
    requires writer { W.failed writer.old ≡ false }
    ensures ran { (input : List ℕ) × IfSome (R.left reader.old) (λ known. known ≡ input) × (text : List ℕ) ×
        Ran (P.relations pool) (as_peers (P.seen pool)) (P.seen result.pool)
        definition.now (lines_of input) result.status (W.failed writer.new)
        (reader.new ≡ reader.old) (R.left reader.old) (R.left reader.new) text
        × Sends (R.reads reader.old) (R.reads reader.new) (W.sent writer.old) (W.sent writer.new) text }
    ensures unread { OnErr (denoted definition.now) (reader.new ≡ reader.old) }
    ensures failed { result.status ≡ 4 → (R.failed reader.new || W.failed writer.new) ≡ true }
    ensures works { result.status ≢ 4 → (R.failed reader.new ≡ false) × (W.failed writer.new ≡ false) }
    ensures same { SameRelations (P.relations pool) (P.relations result.pool) }
{
    run_judged(alloc, judge(alloc, definition), pool, reader, writer)
}

/// Runs a definition that was judged, as [`run_with`] runs its bytes.
pub fn run_judged<P: Peers, R: Reader, W: Writer>(
    alloc: Global,
    judgement: Judgement,
    pool: P,
    reader: &mut R,
    writer: &mut W,
) -> Over<P>
    requires reader { R.failed reader.old ≡ false }
    requires writer { W.failed writer.old ≡ false }
    ensures ran { (bytes : List ℕ) → IsJudged bytes judgement → (input : List ℕ) × IfSome (R.left reader.old) (λ known. known ≡ input) × (text : List ℕ) ×
        Ran (P.relations pool) (as_peers (P.seen pool)) (P.seen result.pool)
        bytes (lines_of input) result.status (W.failed writer.new)
        (reader.new ≡ reader.old) (R.left reader.old) (R.left reader.new) text
        × Sends (R.reads reader.old) (R.reads reader.new) (W.sent writer.old) (W.sent writer.new) text }
    ensures unread { (bytes : List ℕ) → IsJudged bytes judgement → OnErr (denoted bytes) (reader.new ≡ reader.old) }
    ensures failed { result.status ≡ 4 → (R.failed reader.new || W.failed writer.new) ≡ true }
    ensures works { result.status ≢ 4 → (R.failed reader.new ≡ false) × (W.failed writer.new ≡ false) }
    ensures same { SameRelations (P.relations pool) (P.relations result.pool) }
{
    match open(alloc, judgement, pool) {
        Opening::Refused { text, pool } => {
            let status = refuse(writer, &text);
            Over { status, pool }
        }
        Opening::Unbegun(pool) => {
            let status = refuse_for_memory(writer);
            Over { status, pool }
        }
        Opening::Stopped(session) => {
            let status = stop(writer, session.transcript());
            let pool = session.finish().pool;
            Over { status, pool }
        }
        Opening::Built(mut session) => {
            let status = play(alloc, &mut session, reader, writer);
            let pool = session.finish().pool;
            Over { status, pool }
        }
    }
}

/// Writes the one line of a definition that is refused, and returns 1, or 4 if a write failed.
pub(crate) fn refuse<W: Writer>(writer: &mut W, text: &str) -> u8
    requires works { W.failed writer.old ≡ false }
    ensures concludes { (out : List ℕ) × Concludes (joined (codes "refused: " ∷ text.now ∷ codes "\n" ∷ [])) 1 result (W.failed writer.new) out × Sends 0 0 (W.sent writer.old) (W.sent writer.new) out }
    ensures marks { IsMarked result (W.failed writer.new) }
{
    let mut gather = Gather::new();
    let Ok(()) = put_parts(&mut gather, writer, &[b"refused: ", text.as_bytes(), b"\n"]) else {
        return 4;
    };
    gather.finish(writer, 1)
}

/// Writes the one line of a run for which memory was refused before the build, or the last one of a check for which it was refused, and
/// returns 3, or 4 if a write failed.
pub(crate) fn refuse_for_memory<W: Writer>(writer: &mut W) -> u8
    requires works { W.failed writer.old ≡ false }
    ensures concludes { (out : List ℕ) × Concludes nothing_begun 3 result (W.failed writer.new) out × Sends 0 0 (W.sent writer.old) (W.sent writer.new) out }
    ensures marks { IsMarked result (W.failed writer.new) }
{
    let mut gather = Gather::new();
    let Ok(()) = gather.put(writer, b"refused: OutOfMemory\n") else {
        return 4;
    };
    gather.finish(writer, 3)
}

// Writes the lines of a build that stopped, and returns 3, or 4 if a write failed.
fn stop<W: Writer>(writer: &mut W, lines: &[String]) -> u8
    requires works { W.failed writer.old ≡ false }
    ensures concludes { (out : List ℕ) × Concludes (lines_text (map string_bytes lines.now) ++ build_stopped) 3 result (W.failed writer.new) out × Sends 0 0 (W.sent writer.old) (W.sent writer.new) out }
    ensures marks { IsMarked result (W.failed writer.new) }
{
    let mut gather = Gather::new();
    let Ok(()) = put_build(&mut gather, writer, lines) else {
        return 4;
    };
    gather.finish(writer, 3)
}

fn put_build<W: Writer>(
    gather: &mut Gather,
    writer: &mut W,
    lines: &[String],
) -> Result<(), DeviceFault>
    requires works { W.failed writer.old ≡ false }
    ensures puts { Puts result (W.sent writer.old) gather.old (W.sent writer.new) gather.new (lines_text (map string_bytes lines.now) ++ build_stopped) }
    ensures marks { MatchResult result (λ _. W.failed writer.new ≡ false) (λ _. W.failed writer.new ≡ true) }
{
    let Ok(()) = put_lines(gather, writer, lines) else {
        return Err(DeviceFault);
    };
    gather.put(writer, b"build stopped: OutOfMemory\n")
}

// Writes the lines of the build, and then those of the events, and returns the status.
fn play<P: Peers, R: Reader, W: Writer>(
    alloc: Global,
    session: &mut Session<P>,
    reader: &mut R,
    writer: &mut W,
) -> u8
    requires reader { R.failed reader.old ≡ false }
    requires writer { W.failed writer.old ≡ false }
    ensures plays { (input : List ℕ) × IfSome (R.left reader.old) (λ known. known ≡ input) × (text : List ℕ) ×
        EventFileRun (event_replies (P.relations session.old.pool)) without_lines (without_lines (state_at (P.seen session.old.pool) session.old.core))
        (lines_text session.old.core.world.transcript) (lines_of input) result (W.failed writer.new)
        (reader.new ≡ reader.old) (R.left reader.old) (R.left reader.new) text (state_at (P.seen session.new.pool) session.new.core)
        × Sends (R.reads reader.old) (R.reads reader.new) (W.sent writer.old) (W.sent writer.new) text }
    ensures failed { result ≡ 4 → (R.failed reader.new || W.failed writer.new) ≡ true }
    ensures works { result ≢ 4 → (R.failed reader.new ≡ false) × (W.failed writer.new ≡ false) }
    ensures same { SameRelations (P.relations session.old.pool) (P.relations session.new.pool) }
{
    let mut gather = Gather::new();
    let put = put_lines(&mut gather, writer, session.transcript());
    session.forget();
    let Ok(()) = put else {
        return 4;
    };
    handle_lines(alloc, session, reader, &mut gather, writer)
}
