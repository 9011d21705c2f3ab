//! The start of a session without peers.

ghost use Rattle.std.specs.Prelude.{ℕ, List};
ghost use Rattle.event_lines.specs.CheckView.{IsJudged};
ghost use Rattle.event_lines.specs.declared.definition_checks.Judgement.TheVariants as judgements;
ghost use Rattle.c_sessions.specs.Limited.{StartsWithin};
ghost use Rattle.c_sessions.specs.Starting.{StartsAs};

use crate::hosted_session::HostedSession;
use event_lines::{Judgement, Opening, judge, open};
use native_peers::StandIn;
use std::alloc::Global;
use verified::Verified;
use verified_limits::is_within;

/// The outcome of a start from the bytes of a definition.
#[derive(Drop)]
pub enum Started {
    /// The definition is built.
    Built(HostedSession),
    /// Memory was refused in the build, and the session has stopped. Its lines can be taken.
    Stopped(HostedSession),
    /// Reading or the verdict refuses the definition, or it needs a peer. The text has the name of the fault and its fields, as `ui run`
    /// prints them.
    Refused(String),
    /// Memory was refused before the build.
    Unbegun,
}

/// The outcome of a start with a limit on the steps of each dispatch.
#[derive(Drop)]
pub enum LimitedStart {
    /// The start came to this. Where a session began its definition is within the limit.
    Within(Started),
    /// The definition is accepted, and a dispatch of it may count more steps.
    Beyond,
}

// Builds the objects of a definition that was judged, without peers.
fn begin(alloc: Global, judgement: Judgement) -> Started
    ensures { (bytes : List ℕ) → IsJudged bytes judgement → StartsAs bytes result }
{
    let nobody: Option<StandIn> = None;
    match open(alloc, judgement, nobody) {
        Opening::Refused { text, pool: _ } => Started::Refused(text),
        Opening::Unbegun(_) => Started::Unbegun,
        Opening::Stopped(session) => Started::Stopped(HostedSession::of(alloc, session)),
        Opening::Built(session) => Started::Built(HostedSession::of(alloc, session)),
    }
}

/// Reads a definition, verifies it and builds its objects, without peers. The lines of the build are the first that can be taken.
pub fn start(alloc: Global, definition: &[u8]) -> Started
    ensures { StartsAs definition.now result }
{
    begin(alloc, judge(alloc, definition))
}

// Builds the objects of a verified definition, without peers, unless a dispatch of it may count more steps than `most`.
fn begin_within(alloc: Global, verified: Verified, most: u64) -> LimitedStart
    ensures { (bytes : List ℕ) → IsJudged bytes (judgements.Accepted verified) → StartsWithin bytes most result }
{
    match is_within(alloc, &verified, most) {
        Ok(true) => LimitedStart::Within(begin(alloc, Judgement::Accepted(verified))),
        Ok(false) => LimitedStart::Beyond,
        Err(_) => LimitedStart::Within(Started::Unbegun),
    }
}

/// Like `start`, for a definition of which no dispatch may count more steps than `most`. Nothing is built of one that is not.
pub fn start_within(alloc: Global, definition: &[u8], most: u64) -> LimitedStart
    ensures { StartsWithin definition.now most result }
{
    match judge(alloc, definition) {
        Judgement::Refused(text) => LimitedStart::Within(Started::Refused(text)),
        Judgement::Unjudged => LimitedStart::Within(Started::Unbegun),
        Judgement::Accepted(verified) => begin_within(alloc, verified, most),
    }
}
