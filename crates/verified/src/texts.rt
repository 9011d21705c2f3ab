//! Writes the names of channels and programs, and the lines of a report.

ghost use Rattle.std.specs.Prelude.{◌≡◌, codes, string_bytes, IfOk};
ghost use Rattle.ui_machine.specs.Definition.Lookups.{program_at};
ghost use Rattle.law_typing.specs.Rules.RegisterKinds.{class_at};
ghost use Rattle.law_typing.specs.Graph.Channels.{spec_at};
ghost use Rattle.law_typing.specs.Verdict.Report.{id_of, name_of_program, name_of_signal, numbered, property_name, text_of_channel};
ghost use Rattle.verify_graph.specs.ChannelView.{channel_of};
ghost use Rattle.verified.specs.Lines.{line_of_channel, line_of_source};

use crate::numbers::SourceBound;
use definitions::Definition;
use std::alloc::{AllocError, Global};
use type_tree::TypeId;
use ui_machine::{Channel, Member, Place, ProgramId, SignalId, Slot};

// Returns the id of the object or prototype at a place.
fn id_of(definition: &Definition, place: Place) -> &str
    ensures { result.now ≡ id_of definition.now place.0 }
{
    match definition.object(usize::from(place.0)) {
        Some(entry) => entry.id,
        None => "",
    }
}

// Returns the class of the object or prototype at a place.
fn class_at(definition: &Definition, place: Place) -> Option<TypeId>
    ensures { result ≡ class_at definition.now place.0 }
{
    match definition.object(usize::from(place.0)) {
        Some(entry) => Some(entry.class),
        None => None,
    }
}

// Returns the name of a property of a place.
fn property_name(definition: &Definition, place: Place, slot: Slot) -> &str
    ensures { result.now ≡ property_name (spec_at definition.now place.0 slot) }
{
    let Some(class) = class_at(definition, place) else {
        return "";
    };
    match definition.spec(class, slot) {
        Some(spec) => spec.name.as_str(),
        None => "",
    }
}

// Returns the name of a signal of a place.
fn signal_name(definition: &Definition, place: Place, number: SignalId) -> &str
    ensures { result.now ≡ name_of_signal definition.now number (class_at definition.now place.0) }
{
    let Some(class) = class_at(definition, place) else {
        return "";
    };
    match definition.signal(class, number) {
        Some(signal) => signal.name,
        None => "",
    }
}

/// Returns the name of a program, which is empty if there is no such program.
pub fn program_name(definition: &Definition, program: ProgramId) -> &str
    ensures { result.now ≡ name_of_program (program_at definition.now program) }
{
    match definition.program(program) {
        Some(program) => program.name.as_str(),
        None => "",
    }
}

/// Returns the name of a channel: `constructed ID`, `property ID.NAME` or `signal ID.NAME`.
///
/// # Errors
///
/// `AllocError` if memory is refused.
pub fn channel_text(
    alloc: Global,
    definition: &Definition,
    channel: Channel,
) -> Result<String, AllocError>
    ensures { IfOk result (λ text. string_bytes text ≡ text_of_channel definition.now (channel_of channel)) }
{
    let id = id_of(definition, channel.place);
    match channel.member {
        Member::Constructed => format!(in alloc; "constructed {id}"),
        Member::Property(slot) => {
            let name = property_name(definition, channel.place, slot);
            format!(in alloc; "property {id}.{name}")
        }
        Member::Signal(number) => {
            let name = signal_name(definition, channel.place, number);
            format!(in alloc; "signal {id}.{name}")
        }
    }
}

/// Returns the line of the depth, such as `depth 3`.
pub(crate) fn depth_line(alloc: Global, depth: u32) -> Result<String, AllocError>
    ensures { IfOk result (λ line. string_bytes line ≡ numbered (codes "depth ") depth) }
{
    format!(in alloc; "depth {depth}")
}

/// Returns the line of the build, such as `build bound 64`.
pub(crate) fn build_line(alloc: Global, bound: u64) -> Result<String, AllocError>
    ensures { IfOk result (λ line. string_bytes line ≡ numbered (codes "build bound ") bound) }
{
    format!(in alloc; "build bound {bound}")
}

/// Returns the line of a channel, such as `property b.n rank 0 bound 65`.
pub(crate) fn channel_line(
    alloc: Global,
    definition: &Definition,
    channel: Channel,
    rank: u32,
    bound: u64,
) -> Result<String, AllocError>
    ensures { IfOk result (λ line. string_bytes line ≡ line_of_channel definition.now (channel_of channel) rank bound) }
{
    let text = channel_text(alloc, definition, channel)?;
    format!(in alloc; "{text} rank {rank} bound {bound}")
}

/// Returns the line of a source, such as `source tick bound 66`.
pub(crate) fn source_line(
    alloc: Global,
    definition: &Definition,
    source: SourceBound,
) -> Result<String, AllocError>
    ensures { IfOk result (λ line. string_bytes line ≡ line_of_source definition.now source.program source.bound) }
{
    let name = program_name(definition, source.program);
    let bound = source.bound;
    format!(in alloc; "source {name} bound {bound}")
}
