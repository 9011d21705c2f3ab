//! Writes the texts of cycles and of entries.

ghost use Rattle.std.specs.Prelude.{◌≡◌, ◌<◌, Some, codes, length, map, slice_get, string_bytes, IfOk};
ghost use Rattle.law_typing.specs.Verdict.FaultText.{cause_text, entry_text, fault_text, link_text, links_text};
ghost use Rattle.law_typing.specs.Rules.Faults.{bound_too_large, cycle};
ghost use Rattle.verify_numbers.specs.Links.{cause_of};
ghost use Rattle.verified.specs.Entries.{entry_of};
ghost use Rattle.ui_verifier.specs.Verdicts.{link_view};
ghost use Rattle.ui_verifier.specs.Texts.{separator};

use crate::faults::CycleLink;
use definitions::Definition;
use std::alloc::{AllocError, Global};
use ui_machine::{Entry, ProgramId};
use verified::{channel_text, program_name};

// Returns the text for what leads on in a cycle: the name of a program, or `binding`.
fn cause_text(definition: &Definition, by: Option<ProgramId>) -> &str
    ensures { result.now ≡ cause_text definition.now (cause_of by) }
{
    match by {
        Some(program) => program_name(definition, program),
        None => "binding",
    }
}

// Returns the text of a link of a cycle, such as `property a.n by count`.
fn link_text(alloc: Global, definition: &Definition, link: CycleLink) -> Result<String, AllocError>
    ensures { IfOk result (λ text. string_bytes text ≡ link_text definition.now (link_view link)) }
{
    let channel = channel_text(alloc, definition, link.from)?;
    let cause = cause_text(definition, link.by);
    format!(in alloc; "{channel} by {cause}")
}

// Returns what is printed before the link with this number.
fn separator(number: usize) -> &'static str
    ensures { result.now ≡ separator number }
{
    if number == 0 { "" } else { ", " }
}

// Returns the link at an index of a slice.
fn link_at(links: &[CycleLink], number: usize) -> CycleLink
    requires { number < length links.now }
    ensures { slice_get links.now number ≡ Some result }
{
    links[number]
}

// Returns the texts of the links of a cycle, separated by commas.
fn links_text(
    alloc: Global,
    definition: &Definition,
    links: &[CycleLink],
) -> Result<String, AllocError>
    ensures { IfOk result (λ text. string_bytes text ≡ links_text definition.now (map link_view links.now)) }
{
    let mut text = String::new(alloc);
    for number in 0..links.len() {
        let words = link_text(alloc, definition, link_at(links, number))?;
        text.push_str(separator(number))?;
        text.push_str(&words)?;
    }
    Ok(text)
}

/// Returns a cycle as it is printed, such as `Cycle property a.n by count`.
///
/// # Errors
///
/// `AllocError` if memory is refused.
pub(crate) fn cycle_text(
    alloc: Global,
    definition: &Definition,
    links: &[CycleLink],
) -> Result<String, AllocError>
    ensures { IfOk result (λ text. string_bytes text ≡ fault_text definition.now (cycle (map link_view links.now))) }
{
    let links = links_text(alloc, definition, links)?;
    format!(in alloc; "Cycle {links}")
}

// Returns the name of an entry in the report.
fn entry_text(alloc: Global, definition: &Definition, entry: Entry) -> Result<String, AllocError>
    ensures { IfOk result (λ text. string_bytes text ≡ entry_text definition.now (entry_of entry)) }
{
    match entry {
        Entry::Build => format!(in alloc; "build"),
        Entry::At(channel) => channel_text(alloc, definition, channel),
        Entry::Source(program) => {
            let name = program_name(definition, program);
            format!(in alloc; "source {name}")
        }
        Entry::Plain => Ok(String::new(alloc)),
    }
}

/// Returns an entry whose bound is too large as it is printed, such as `BoundTooLarge build`.
///
/// # Errors
///
/// `AllocError` if memory is refused.
pub(crate) fn bound_text(
    alloc: Global,
    definition: &Definition,
    entry: Entry,
) -> Result<String, AllocError>
    ensures { IfOk result (λ text. string_bytes text ≡ fault_text definition.now (bound_too_large (entry_of entry))) }
{
    let entry = entry_text(alloc, definition, entry)?;
    format!(in alloc; "BoundTooLarge {entry}")
}
