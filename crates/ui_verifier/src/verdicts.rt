//! Verifies definitions.

ghost use Rattle.std.specs.Prelude.{◌≡◌, All, None, Some, IfOk};
ghost use Rattle.ui_machine.specs.Definition as machine;
ghost use Rattle.law_judging.specs.FirstFaults.{first_fault};
ghost use Rattle.law_typing.specs.Rules.Faults.{bound_too_large, cycle};
ghost use Rattle.law_typing.specs.Verdict.Judges.{IsToldCycle, Judges};
ghost use Rattle.law_idle.specs.Idle.{busy_channels, busy_graph};
ghost use Rattle.definition_format.specs.Origin.{IsDenoted};
ghost use Rattle.verify_numbers.specs.Reckonings.{IsCycleOnce};
ghost use Rattle.verify_numbers.specs.Links.{NamesBelow, links_view};
ghost use Rattle.verify_sketches.specs.Sizes.{IsSmall};
ghost use Rattle.verify_sketches.specs.Sketches.{IsSketch};
ghost use Rattle.verify_sketches.specs.View.{sketch_view};
ghost use Rattle.verify_rules.specs.RuleFaults as rules;
ghost use Rattle.verified.specs.Entries.{entry_of};
ghost use Rattle.ui_verifier.specs.Bounds.{AreBusyNumbers};
ghost use Rattle.ui_verifier.specs.Verdicts.{AreAccepted, IsJudged, IsRefusal, Verifies};

use crate::bounds::told_numbers;
use crate::cycles::cycle_from_first;
use crate::faults::{Refusal, VerifyError, VerifyFault};
use crate::large_bounds::too_large;
use crate::texts::{bound_text, cycle_text};
use definitions::Definition;
use std::alloc::{AllocError, Global};
use ui_machine::Entry;
use verified::{Numbers, Verified};
use verify_channels::sketch;
use verify_graph::ChannelNumbers;
use verify_numbers::{Layout, Reckoned, SketchedLink, reckon};
use verify_operands::Lookups;
use verify_rules::{RuleFault, fault_text, rule_fault};
use verify_sketches::Sketch;

// The judgement of a definition that breaks no rule.
#[derive(Debug, Drop)]
enum Judgement {
    Accepted(Numbers),
    Refused(Refusal),
}

// Makes the refusal for a broken rule.
fn rule_refusal(
    alloc: Global,
    definition: &Definition,
    fault: RuleFault,
) -> Result<Refusal, AllocError>
    requires { Judges definition.now (Some (rules.fault_view fault)) }
    ensures { IfOk result (λ r. IsRefusal definition.now r) }
{
    let text = fault_text(alloc, definition, &fault)?;
    Ok(Refusal {
        fault: VerifyFault::Rule(fault),
        text,
    })
}

// Makes the refusal for a cycle.
fn cycle_refusal(
    alloc: Global,
    lookups: &Lookups<'_>,
    busy: &ChannelNumbers,
    links: &[SketchedLink],
) -> Result<Refusal, AllocError>
    requires busy { busy.now ≡ busy_channels lookups.now }
    requires lawful { first_fault lookups.now ≡ None }
    requires few { All (NamesBelow 256) links.now }
    requires cycle { IsCycleOnce (busy_graph lookups.now) (links_view (busy_graph lookups.now) links.now) }
    ensures { IfOk result (λ r. IsRefusal lookups.now r) }
{
    let channels = ChannelNumbers::new(alloc, lookups)?;
    let links = cycle_from_first(alloc, &channels, busy, links)?;
    let text = cycle_text(alloc, lookups.definition(), links.as_slice())?;
    Ok(Refusal {
        fault: VerifyFault::Cycle(links),
        text,
    })
}

// Makes the refusal for a bound that is too large.
fn bound_refusal(
    alloc: Global,
    definition: &Definition,
    entry: Entry,
) -> Result<Refusal, AllocError>
    requires { Judges definition.now (Some (bound_too_large (entry_of entry))) }
    ensures { IfOk result (λ r. IsRefusal definition.now r) }
{
    let text = bound_text(alloc, definition, entry)?;
    Ok(Refusal {
        fault: VerifyFault::BoundTooLarge(entry),
        text,
    })
}

// Judges a definition that breaks no rule by the numbers of its busy channels.
fn judge_numbers(
    alloc: Global,
    lookups: &Lookups<'_>,
    busy: &ChannelNumbers,
    numbers: Numbers,
) -> Result<Judgement, AllocError>
    requires busy { busy.now ≡ busy_channels lookups.now }
    requires read { IsDenoted lookups.now }
    requires lawful { first_fault lookups.now ≡ None }
    requires told { AreBusyNumbers lookups.now numbers }
    ensures { IfOk result (λ j. IsJudged lookups.now j) }
{
    // For the proof: a definition has few objects.
    let _limits = lookups.definition().limits();
    match too_large(&numbers, busy) {
        Some(entry) => {
            let refusal = bound_refusal(alloc, lookups.definition(), entry)?;
            Ok(Judgement::Refused(refusal))
        }
        None => Ok(Judgement::Accepted(numbers)),
    }
}

// Judges a definition that breaks no rule, by the sketch of its graph without the idle channels.
fn judge_sketch(
    alloc: Global,
    lookups: &Lookups<'_>,
    busy: &ChannelNumbers,
    sketch: &Sketch,
) -> Result<Judgement, AllocError>
    requires busy { busy.now ≡ busy_channels lookups.now }
    requires read { IsDenoted lookups.now }
    requires lawful { first_fault lookups.now ≡ None }
    requires small { IsSmall (sketch_view sketch.now) }
    requires sketched { IsSketch (busy_graph lookups.now) (sketch_view sketch.now) }
    ensures { IfOk result (λ j. IsJudged lookups.now j) }
{
    let definition = lookups.definition();
    let layout = Layout::new(alloc, sketch)?;
    match reckon(alloc, sketch, &layout, definition.limits().handlers)? {
        Reckoned::Numbers(nodes) => {
            let told = told_numbers(alloc, lookups, busy, sketch, &layout, &nodes)?;
            judge_numbers(alloc, lookups, busy, told)
        }
        Reckoned::Cycle(links) => {
            let refusal = cycle_refusal(alloc, lookups, busy, links.as_slice())?;
            Ok(Judgement::Refused(refusal))
        }
    }
}

// Judges a definition that breaks no rule, and returns its busy channels as well.
fn judge_lawful(
    alloc: Global,
    definition: &Definition,
) -> Result<(ChannelNumbers, Judgement), AllocError>
    requires { first_fault definition.now ≡ None }
    ensures { IfOk result (λ r. (r.0 ≡ busy_channels definition.now) × IsJudged definition.now r.1) }
{
    let lookups = Lookups::new(alloc, definition)?;
    let busy = ChannelNumbers::of_busy(alloc, &lookups)?;
    let sketch = sketch(alloc, &lookups, &busy)?;
    // For the proof: some bytes denote the definition.
    let _types = definition.types();
    let judgement = judge_sketch(alloc, &lookups, &busy, &sketch)?;
    Ok((busy, judgement))
}

/// Judges a definition: whether each program is typed, each handler and binding fits, no property is in two pairs, freezes and thaws match,
/// no channel may raise itself again, and no dispatch may take more than 10^12 steps.
///
/// # Errors
///
/// Returns `Refused` with the first rule that is broken, in the order of the rules and of the document. If none is broken, the refusal is
/// for a cycle of channels, given from its first one in the report. If there is no cycle, it is for the first entry of the report whose
/// bound is too large. Returns `OutOfMemory` if memory is refused.
pub fn verify(alloc: Global, definition: Definition) -> Result<Verified, VerifyError>
    ensures { Verifies definition result }
{
    if let Some(fault) = rule_fault(alloc, &definition)? {
        let refusal = rule_refusal(alloc, &definition, fault)?;
        return Err(VerifyError::Refused(refusal));
    }
    let (busy, judgement) = judge_lawful(alloc, &definition)?;
    match judgement {
        Judgement::Accepted(numbers) => Ok(Verified::new(definition, busy, numbers)),
        Judgement::Refused(refusal) => Err(VerifyError::Refused(refusal)),
    }
}
