//! A whole check of a definition, which writes its report or the one line of its refusal and returns a status.

ghost use Rattle.std.specs.Prelude.{◌≡◌, ◌≢◌, ℕ, List, Ok, Err, true, false};
ghost use Rattle.law_typing.specs.Verdict.Accepted.{Accepted};
ghost use Rattle.builder_defs.specs.Denoted.{denoted};
ghost use Rattle.builder_defs.specs.Refusals.{refusal};
ghost use Rattle.verified.specs.Lines.{report_of};
ghost use Rattle.event_lines.specs.CheckView.{IsJudged};
ghost use Rattle.event_lines.specs.Checks.{Checked, IsReported};
ghost use Rattle.event_lines.specs.Writing.{IsMarked};

use crate::devices::Writer;
use crate::whole_runs::{refuse, refuse_for_memory};
use builder_defs::{Definition, DefinitionFault, ReadError, read_definition};
use std::alloc::Global;
use ui_verifier::{VerifyError, verify};
use verified::{ReportFault, Verified};

/// The judgement of the bytes of a definition.
#[derive(Drop)]
pub enum Judgement {
    /// Reading or the verdict refuses them. The text is the fault as it is printed.
    Refused(String),
    /// Memory was refused.
    Unjudged,
    /// The definition is accepted.
    Accepted(Verified),
}

/// Judges a definition, and writes its report if it is accepted, or else the one line of its refusal. Returns the status: 0, or 1 if the
/// definition is refused, 3 if memory is refused, and 4 if a write fails. Nothing is run. If memory is refused, the line
/// `refused: OutOfMemory` is written. Before it there are the first lines of the report, if memory is refused within it.
pub fn check<W: Writer>(alloc: Global, definition: &[u8], writer: &mut W) -> u8
    requires writer { W.failed writer.old ≡ false }
    ensures checked { Checked definition.now result (W.failed writer.new) (W.sent writer.old).bytes (W.sent writer.new).bytes }
    ensures failed { result ≡ 4 → W.failed writer.new ≡ true }
    ensures works { result ≢ 4 → W.failed writer.new ≡ false }
{
    match judge(alloc, definition) {
        Judgement::Refused(text) => refuse(writer, &text),
        Judgement::Unjudged => refuse_for_memory(writer),
        Judgement::Accepted(verified) => report(alloc, &verified, writer),
    }
}

/// Reads a definition and verifies it.
pub fn judge(alloc: Global, bytes: &[u8]) -> Judgement
    ensures { IsJudged bytes.now result }
{
    match read_definition(alloc, bytes) {
        Ok(definition) => return verdict(alloc, definition),
        Err(ReadError::OutOfMemory) => return Judgement::Unjudged,
        Err(ReadError::Refused(fault)) => return unread(alloc, &fault),
    }
}

// Returns the judgement of bytes that denote no definition.
fn unread(alloc: Global, fault: &DefinitionFault) -> Judgement
    ensures { (bytes : List ℕ) → denoted bytes ≡ Err (refusal fault.now) → IsJudged bytes result }
{
    match fault.text(alloc) {
        Ok(text) => return Judgement::Refused(text),
        Err(_) => return Judgement::Unjudged,
    }
}

// Verifies a definition, and returns its judgement.
fn verdict(alloc: Global, definition: Definition) -> Judgement
    ensures { (bytes : List ℕ) → denoted bytes ≡ Ok definition → IsJudged bytes result }
{
    match verify(alloc, definition) {
        Ok(verified) => return Judgement::Accepted(verified),
        Err(VerifyError::OutOfMemory) => return Judgement::Unjudged,
        Err(VerifyError::Refused(refusal)) => return Judgement::Refused(refusal.text),
    }
}

// Writes the report, and returns the status.
fn report<W: Writer>(alloc: Global, verified: &Verified, writer: &mut W) -> u8
    requires works { W.failed writer.old ≡ false }
    ensures accepted { Accepted verified.now }
    ensures reports { (a : Accepted verified.now) → IsReported (report_of verified.now a) result (W.failed writer.new) (W.sent writer.old).bytes (W.sent writer.new).bytes }
    ensures marks { IsMarked result (W.failed writer.new) }
{
    // For the proof: a verified definition is accepted.
    let _ = verified.definition();
    match writer.write_report(alloc, verified) {
        Ok(()) => 0,
        Err(ReportFault::OutOfMemory) => refuse_for_memory(writer),
        Err(ReportFault::WriteFault) => 4,
    }
}
