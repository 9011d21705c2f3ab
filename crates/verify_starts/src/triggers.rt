//! The triggers of instructions, which are the effects that may start something.

ghost use Rattle.std.specs.Prelude.{◌≡◌};
ghost use Rattle.bytecode.specs.View.{instruction_view, object_instruction_view, property_instruction_view, signal_instruction_view};
ghost use Rattle.verify_operands.specs.Views.{kinds_of};
ghost use Rattle.verify_starts.specs.Triggers.{trigger_of, trigger_view};

use crate::places_covered::covering;
use bytecode::{
    Instruction, ObjectInstruction, PropertyInstruction, RegisterKind, SignalInstruction,
};
use ui_machine::Place;
use verify_operands::Lookups;
use verify_operands::operands::kind_in;

/// The effect of an instruction that may start something. A kind covers the objects that its object operand may hold.
#[derive(Clone, Copy)]
pub enum Trigger<'a> {
    Idle,
    /// The property with this name is set or notified.
    Property { kind: RegisterKind, name: &'a str },
    /// The signal with this name is emitted.
    Signal { kind: RegisterKind, name: &'a str },
    /// An object is made from the prototype at this place.
    Making(Option<Place>),
    /// Notifications of an object wait no longer.
    Thaw(RegisterKind),
}

fn property_trigger<'a>(
    lookups: &Lookups<'_>,
    kinds: &[RegisterKind],
    instruction: &'a PropertyInstruction,
) -> Trigger<'a>
    ensures { trigger_view result ≡ trigger_of lookups.now (kinds_of kinds.now) (property_instruction_view instruction.now) }
{
    match instruction {
        PropertyInstruction::Set {
            object,
            property,
            ..
        } => Trigger::Property {
            kind: covering(&kind_in(kinds, *object)),
            name: property.as_str(),
        },
        PropertyInstruction::Notify { object, property } => Trigger::Property {
            kind: covering(&kind_in(kinds, *object)),
            name: property.as_str(),
        },
        PropertyInstruction::Thaw(object) => Trigger::Thaw(covering(&kind_in(kinds, *object))),
        PropertyInstruction::Get { .. } | PropertyInstruction::Freeze(_) => Trigger::Idle,
    }
}

fn object_trigger<'a>(
    lookups: &Lookups<'_>,
    kinds: &[RegisterKind],
    instruction: &'a ObjectInstruction,
) -> Trigger<'a>
    ensures { trigger_view result ≡ trigger_of lookups.now (kinds_of kinds.now) (object_instruction_view instruction.now) }
{
    match instruction {
        ObjectInstruction::New { id, .. } => Trigger::Making(lookups.place(id.as_str())),
        ObjectInstruction::LookUp { .. }
        | ObjectInstruction::Sink(_)
        | ObjectInstruction::Orphan(_)
        | ObjectInstruction::Dispose(_)
        | ObjectInstruction::Adopt { .. } => Trigger::Idle,
    }
}

fn signal_trigger<'a>(
    lookups: &Lookups<'_>,
    kinds: &[RegisterKind],
    instruction: &'a SignalInstruction,
) -> Trigger<'a>
    ensures { trigger_view result ≡ trigger_of lookups.now (kinds_of kinds.now) (signal_instruction_view instruction.now) }
{
    match instruction {
        SignalInstruction::Emit { object, signal, .. } => Trigger::Signal {
            kind: covering(&kind_in(kinds, *object)),
            name: signal.as_str(),
        },
        SignalInstruction::Connect { .. }
        | SignalInstruction::Disconnect { .. }
        | SignalInstruction::Block { .. }
        | SignalInstruction::Unblock { .. }
        | SignalInstruction::Stop => Trigger::Idle,
    }
}

/// Returns the trigger of an instruction whose registers have these kinds.
#[tactic(auto, using(crate::proofs::IdleInstructions::computed, crate::proofs::IdleInstructions::controlled, crate::proofs::IdleInstructions::sourced))]
pub fn trigger_of<'a>(
    lookups: &Lookups<'_>,
    kinds: &[RegisterKind],
    instruction: &'a Instruction,
) -> Trigger<'a>
    ensures { trigger_view result ≡ trigger_of lookups.now (kinds_of kinds.now) (instruction_view instruction.now) }
{
    match instruction {
        Instruction::Property(instruction) => property_trigger(lookups, kinds, instruction),
        Instruction::Object(instruction) => object_trigger(lookups, kinds, instruction),
        Instruction::Signal(instruction) => signal_trigger(lookups, kinds, instruction),
        Instruction::Compute { .. }
        | Instruction::Control(_)
        | Instruction::Source(_)
        | Instruction::Peer(_) => Trigger::Idle,
    }
}
