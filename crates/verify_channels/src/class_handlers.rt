//! The programs that classes run at channels: class handlers, and the programs of constructions.

ghost use Rattle.std.specs.Prelude.{◌≡◌, ◌++◌, ◌<◌, ◌∷◌, [], codes, cond, length, true, IfOk, OnOk};
ghost use Rattle.std.specs.List.{filter};
ghost use Rattle.ui_machine.specs.Definition.Lookups.{class_of, specs_of};
ghost use Rattle.ui_machine.specs.Definition.Properties.{has_flags};
ghost use Rattle.ui_machine.specs.Rules.Construction.{constructed_runs};
ghost use Rattle.ui_machine.specs.Rules.EmissionPlan.{class_handler_of, signal_of};
ghost use Rattle.law_typing.specs.Graph.{class_handler_for, listed_if, stages_at, stages_of};
ghost use Rattle.law_typing.specs.Graph.Channels.{constructed_at, is_channel, of_class, programs_of};
ghost use Rattle.law_typing.specs.Rules.RegisterKinds.{class_at};
ghost use Rattle.verify_graph.specs.ChannelView.{channel_of};

use bitflags::Flags;
use definitions::Definition;
use signal_core::SignalFlags;
use std::alloc::{AllocError, Global};
use type_tree::TypeId;
use ui_machine::{Channel, Member, Place, ProgramId, SignalId};
use verify_operands::Lookups;

// Returns the program that a class with properties runs for `notify`.
fn notify_handler(definition: &Definition, class: TypeId) -> Option<ProgramId>
    ensures { 0 < length (specs_of definition.now class) → result ≡ class_handler_of definition.now class (codes "notify") }
{
    // For the proof: a class with properties is there, and its first signal is `notify`.
    let _count = definition.slots(class);
    let _types = definition.types();
    definition.class_handler(class, 0)
}

/// Returns the program of the class handler at a channel.
pub fn class_handler(lookups: &Lookups<'_>, channel: &Channel) -> Option<ProgramId>
    ensures { is_channel lookups.now (channel_of channel.now) ≡ true
        → listed_if result ≡ of_class (class_handler_for lookups.now (channel_of channel.now)) (class_at lookups.now channel.now.place.0) }
{
    let Some(class) = lookups.class_at(channel.place) else {
        return None;
    };
    match channel.member {
        Member::Constructed => None,
        Member::Property(_) => notify_handler(lookups.definition(), class),
        Member::Signal(number) => lookups.definition().class_handler(class, number),
    }
}

// Returns 1 if a condition holds, or else 0.
fn one_if(is_so: bool) -> u32
    ensures { result ≡ cond is_so 1 0 }
{
    if is_so { 1 } else { 0 }
}

// Returns how many stages of the class handler these flags name.
fn stage_count(flags: SignalFlags) -> u32
    ensures { result ≡ length (filter (λ stage. has_flags stage flags.0) (1 ∷ 2 ∷ 4 ∷ [])) }
{
    one_if(flags.contains(SignalFlags::RUN_FIRST))
        + one_if(flags.contains(SignalFlags::RUN_LAST))
        + one_if(flags.contains(SignalFlags::RUN_CLEANUP))
}

// Returns the number of stages of a signal of a class.
fn signal_stages(lookups: &Lookups<'_>, class: TypeId, number: SignalId) -> u32
    ensures { result ≡ stages_of (signal_of lookups.now class number) }
{
    match lookups.signal(class, number) {
        Some(signal) => stage_count(signal.flags),
        None => 0,
    }
}

/// Returns how often the class handler runs at a channel.
pub fn stages(lookups: &Lookups<'_>, channel: &Channel) -> u32
    ensures { result ≡ stages_at lookups.now (channel_of channel.now) }
{
    match channel.member {
        Member::Constructed => 0,
        Member::Property(_) => 1,
        Member::Signal(number) => match lookups.class_at(channel.place) {
            Some(class) => signal_stages(lookups, class, number),
            None => 0,
        },
    }
}

// Adds the program that a class itself names for its constructed objects.
fn add_own(
    programs: &mut Vec<ProgramId>,
    definition: &Definition,
    class: TypeId,
) -> Result<(), AllocError>
    ensures { OnOk result (programs.new.items ≡ programs.old.items ++ listed_if (class_of definition.now class).constructed) }
{
    if let Some(program) = definition.constructed(class) {
        programs.push(program)?;
    }
    Ok(())
}

// Adds the programs of a class and its ancestors, from the root on.
fn add_constructed(
    programs: &mut Vec<ProgramId>,
    definition: &Definition,
    class: TypeId,
) -> Result<(), AllocError>
    ensures { OnOk result (programs.new.items ≡ programs.old.items ++ programs_of (constructed_runs definition.now class)) }
{
    let Some(parent) = definition.types().parent(class) else {
        return add_own(programs, definition, class);
    };
    add_constructed(programs, definition, parent)?;
    add_own(programs, definition, class)?;
    Ok(())
}

/// Returns the programs that the construction of the object at a place runs.
///
/// # Errors
///
/// `AllocError` if memory is refused.
pub fn constructed_at(
    alloc: Global,
    lookups: &Lookups<'_>,
    place: Place,
) -> Result<Vec<ProgramId>, AllocError>
    ensures { IfOk result (λ programs. programs.items ≡ constructed_at lookups.now place.0) }
{
    let mut programs = Vec::new(alloc);
    let Some(class) = lookups.class_at(place) else {
        return Ok(programs);
    };
    add_constructed(&mut programs, lookups.definition(), class)?;
    Ok(programs)
}
