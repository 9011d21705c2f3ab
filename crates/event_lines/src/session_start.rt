//! The opening of a run: a definition that was read and verified is built, with the peers of a pool.

ghost use Rattle.std.specs.Prelude.{◌≡◌, ◌++◌, codes, ℕ, List, None, Ok, Option, Some, string_bytes, IfSome};
ghost use Rattle.ui_machine.specs.Definition.{Definition};
ghost use Rattle.law_peers.specs.Needs.{Mismatch, mismatch};
ghost use Rattle.law_typing.specs.Verdict.Judges.{Judges};
ghost use Rattle.builder_defs.specs.Denoted.{denoted};
ghost use Rattle.builder_defs.specs.FaultText.{printed};
ghost use Rattle.native_peers.specs.Matching.{as_peers};
ghost use Rattle.native_peers.specs.Seen.{SameRelations};
ghost use Rattle.ui_engine.specs.SessionView.{IsWhy};
ghost use Rattle.event_lines.specs.CheckView.{IsJudged};
ghost use Rattle.event_lines.specs.OpeningView.{Opened, pool_in};
ghost use Rattle.event_lines.specs.Texts.{mismatch_text};

use crate::definition_checks::Judgement;
use definition_format::printed;
use native_peers::Peers;
use std::alloc::{AllocError, Global};
use ui_engine::{Refused, Session, StartFault, Started};
use verified::Verified;

/// The outcome of opening a run with the bytes of a definition and a pool.
#[derive(Drop)]
pub enum Opening<P: Peers> {
    /// Reading or the verdict refuses the bytes, or the pool does not match the definition. The text has the name of the fault and its
    /// fields. The pool is as it was.
    Refused { text: String, pool: P },
    /// Memory was refused before the build. The pool is as it was.
    Unbegun(P),
    /// Memory was refused in the build.
    Stopped(Session<P>),
    /// The definition is built.
    Built(Session<P>),
}

/// Builds the definition that was accepted with the peers of a pool. Bytes that were refused or not judged are not opened, and the pool is
/// handed back.
pub fn open<P: Peers>(alloc: Global, judgement: Judgement, pool: P) -> Opening<P>
    ensures opened { (bytes : List ℕ) → IsJudged bytes judgement →
        Opened P.seen (P.relations pool) (as_peers (P.seen pool)) pool bytes result }
    ensures same { SameRelations (P.relations pool) (P.relations (pool_in result)) }
{
    match judgement {
        Judgement::Refused(text) => return Opening::Refused { text, pool },
        Judgement::Unjudged => return Opening::Unbegun(pool),
        Judgement::Accepted(verified) => return build(alloc, verified, pool),
    }
}

// Returns the name of a fault and the printed name of its peer, or None if memory is refused.
fn words(alloc: Global, fault: &str, name: &str) -> Option<String>
    ensures { IfSome result (λ s. string_bytes s ≡ fault.now ++ codes " " ++ printed name.now) }
{
    let name = printed(alloc, name).ok()?;
    format!(in alloc; "{fault} {name}").ok()
}

// Returns the fault for which no session began, as it is printed, or None for want of memory.
fn fault_text(alloc: Global, fault: &StartFault) -> Option<String>
    ensures { IfSome result (λ s. (lack : Option Mismatch) → IsWhy fault.now lack → (m : Mismatch) × (lack ≡ Some m) × (string_bytes s ≡ mismatch_text m)) }
{
    match fault {
        StartFault::OutOfMemory => None,
        StartFault::PeerMissing(name) => words(alloc, "PeerMissing", name.as_str()),
        StartFault::PeerClosed(name) => words(alloc, "PeerClosed", name.as_str()),
        StartFault::PeerShape(name) => words(alloc, "PeerShape", name.as_str()),
        StartFault::PeerUnused(name) => words(alloc, "PeerUnused", name.as_str()),
        StartFault::StepLimit => None,
    }
}

// Returns the opening of a verified definition with which no session began.
fn unstarted<P: Peers>(alloc: Global, refused: Refused<P>) -> Opening<P>
    ensures opened { (bytes : List ℕ) (d : Definition) → denoted bytes ≡ Ok d → Judges d None → IsWhy refused.fault (mismatch d (as_peers (P.seen refused.pool))) →
        Opened P.seen (P.relations refused.pool) (as_peers (P.seen refused.pool)) refused.pool bytes result }
    ensures same { pool_in result ≡ refused.pool }
{
    let text = fault_text(alloc, &refused.fault);
    let pool = refused.pool;
    match text {
        Some(text) => Opening::Refused { text, pool },
        None => Opening::Unbegun(pool),
    }
}

// Builds a definition that is accepted.
fn build<P: Peers>(alloc: Global, verified: Verified, pool: P) -> Opening<P>
    ensures opened { (bytes : List ℕ) → denoted bytes ≡ Ok verified →
        Opened P.seen (P.relations pool) (as_peers (P.seen pool)) pool bytes result }
    ensures same { SameRelations (P.relations pool) (P.relations (pool_in result)) }
{
    // For the proof: a verified definition is accepted.
    let _ = verified.definition();
    let started = match Session::start(alloc, verified, pool) {
        Ok(started) => started,
        Err(refused) => return unstarted(alloc, refused),
    };
    let Started { session, build } = started;
    match build {
        Ok(_) => return Opening::Built(session),
        Err(_) => return Opening::Stopped(session),
    }
}
