//! Types instructions on the properties of an object.

ghost use Rattle.std.specs.Prelude.{◌≡◌};
ghost use Rattle.bytecode.specs.View.{property_instruction_view};
ghost use Rattle.param_specs.specs.View.{spec_view};
ghost use Rattle.ui_machine.specs.Definition.Programs as words;
ghost use Rattle.law_typing.specs.Rules.Typing.{changing_none, get_property, operand, property_of, set_property, typed};
ghost use Rattle.verify_operands.specs.Views.{Leaves, Tests, kinds_of};

use bytecode::{PropertyInstruction, Register, RegisterKind};
use param_specs::Spec;
use verify_operands::operands::{fitting, operand};
use verify_operands::{Lookups, Rule, TypingError, Written};

// Returns the property with this name of an object operand.
#[tactic(auto, unfolding(law_typing::specs::Rules::Typing::property_of))]
fn property_of<'l>(
    lookups: &'l Lookups<'_>,
    kinds: &[RegisterKind],
    object: Register,
    name: &str,
) -> Result<&'l Spec, Rule>
    ensures { Tests (λ s. spec_view s.now) result (property_of lookups.now (kinds_of kinds.now) object.0 name.now) }
{
    let class = operand(lookups, kinds, object)?;
    let Some(slot) = lookups.slot(class, name) else {
        return Err(Rule::Unknown);
    };
    match lookups.spec(class, slot) {
        Some(spec) => Ok(spec),
        None => Err(Rule::Unknown),
    }
}

// Types `get d o p`.
#[tactic(auto, unfolding(law_typing::specs::Rules::Typing::get_property))]
fn got(
    lookups: &Lookups<'_>,
    kinds: &[RegisterKind],
    to: Register,
    object: Register,
    name: &str,
) -> Result<Option<Written>, TypingError>
    ensures { Leaves (kinds_of kinds.now) result (get_property lookups.now (kinds_of kinds.now) to.0 object.0 name.now) }
{
    let spec = property_of(lookups, kinds, object, name)?;
    if !spec.is_readable() {
        return Err(TypingError::Broken(Rule::Flags));
    }
    Ok(Some(Written {
        to,
        kind: RegisterKind::Plain(spec.kind),
    }))
}

// Types `set o p s`.
#[tactic(auto, unfolding(law_typing::specs::Rules::Typing::set_property, law_typing::specs::Rules::Typing::changing_none))]
fn set(
    lookups: &Lookups<'_>,
    kinds: &[RegisterKind],
    object: Register,
    name: &str,
    from: Register,
) -> Result<Option<Written>, TypingError>
    ensures { Leaves (kinds_of kinds.now) result (set_property lookups.now (kinds_of kinds.now) object.0 name.now from.0) }
{
    let spec = property_of(lookups, kinds, object, name)?;
    if !spec.is_writable() {
        return Err(TypingError::Broken(Rule::Flags));
    }
    if spec.is_construct_only() {
        return Err(TypingError::Broken(Rule::ConstructOnly));
    }
    fitting(lookups, kinds, from, &spec.kind)?;
    Ok(None)
}

// Types `notify o p`.
#[tactic(auto, unfolding(law_typing::specs::Rules::Typing::changing_none))]
fn notified(
    lookups: &Lookups<'_>,
    kinds: &[RegisterKind],
    object: Register,
    name: &str,
) -> Result<Option<Written>, TypingError>
    ensures { Leaves (kinds_of kinds.now) result (changing_none (kinds_of kinds.now) (property_of lookups.now (kinds_of kinds.now) object.0 name.now)) }
{
    property_of(lookups, kinds, object, name)?;
    Ok(None)
}

/// Types an instruction whose only operand is an object. It writes no register.
#[tactic(auto, unfolding(law_typing::specs::Rules::Typing::changing_none))]
pub(crate) fn object_alone(
    lookups: &Lookups<'_>,
    kinds: &[RegisterKind],
    object: Register,
) -> Result<Option<Written>, TypingError>
    ensures { Leaves (kinds_of kinds.now) result (changing_none (kinds_of kinds.now) (operand lookups.now (kinds_of kinds.now) object.0)) }
{
    operand(lookups, kinds, object)?;
    Ok(None)
}

/// Types an instruction on properties. Returns the register that it writes, or the first rule that it breaks.
pub(crate) fn typed(
    lookups: &Lookups<'_>,
    kinds: &[RegisterKind],
    instruction: &PropertyInstruction,
) -> Result<Option<Written>, TypingError>
    ensures { (p : words.Program) → Leaves (kinds_of kinds.now) result (typed lookups.now p (kinds_of kinds.now) (property_instruction_view instruction.now)) }
{
    match instruction {
        PropertyInstruction::Get {
            to,
            object,
            property,
        } => got(lookups, kinds, *to, *object, property.as_str()),
        PropertyInstruction::Set {
            object,
            property,
            from,
        } => set(lookups, kinds, *object, property.as_str(), *from),
        PropertyInstruction::Notify { object, property } => notified(
            lookups,
            kinds,
            *object,
            property.as_str(),
        ),
        PropertyInstruction::Freeze(object) => object_alone(lookups, kinds, *object),
        PropertyInstruction::Thaw(object) => object_alone(lookups, kinds, *object),
    }
}
