//! Types instructions on objects themselves.

ghost use Rattle.std.specs.Prelude.{◌≡◌};
ghost use Rattle.bytecode.specs.View.{object_instruction_view};
ghost use Rattle.ui_machine.specs.Definition.Programs as words;
ghost use Rattle.law_typing.specs.Rules.Typing.{adopting, look_up_object, place_for, typed};
ghost use Rattle.verify_operands.specs.Views.{Leaves, Tests, kinds_of};

use crate::properties::object_alone;
use bytecode::{ObjectInstruction, Register, RegisterKind};
use ui_machine::Place;
use verify_operands::operands::operand;
use verify_operands::{Lookups, Rule, TypingError, Written};

// Returns the place with this id, which must be that of a prototype if `of_prototype`, and else that of an object.
#[tactic(auto, unfolding(law_typing::specs::Rules::Typing::place_for))]
fn place_for(lookups: &Lookups<'_>, id: &str, of_prototype: bool) -> Result<Place, Rule>
    ensures { Tests (λ place. place.0) result (place_for lookups.now id.now of_prototype) }
{
    let Some(place) = lookups.place(id) else {
        return Err(Rule::Unknown);
    };
    let Some(is_prototype) = lookups.is_prototype(place) else {
        return Err(Rule::Unknown);
    };
    if is_prototype != of_prototype {
        return Err(Rule::Unknown);
    }
    Ok(place)
}

// Types `object d id` and `new d c`.
#[tactic(auto, unfolding(law_typing::specs::Rules::Typing::look_up_object))]
fn looked_up(
    lookups: &Lookups<'_>,
    kinds: &[RegisterKind],
    to: Register,
    id: &str,
    of_prototype: bool,
) -> Result<Option<Written>, TypingError>
    ensures { Leaves (kinds_of kinds.now) result (look_up_object lookups.now (kinds_of kinds.now) to.0 id.now of_prototype) }
{
    let place = place_for(lookups, id, of_prototype)?;
    Ok(Some(Written {
        to,
        kind: RegisterKind::AtOrNull(place),
    }))
}

// Types `adopt d o o`.
#[tactic(auto, unfolding(law_typing::specs::Rules::Typing::adopting))]
fn adopted(
    lookups: &Lookups<'_>,
    kinds: &[RegisterKind],
    to: Register,
    parent: Register,
    child: Register,
) -> Result<Option<Written>, TypingError>
    ensures { Leaves (kinds_of kinds.now) result (adopting lookups.now (kinds_of kinds.now) to.0 parent.0 child.0) }
{
    operand(lookups, kinds, parent)?;
    operand(lookups, kinds, child)?;
    Ok(Some(Written::truth(to)))
}

/// Types an instruction on objects. Returns the register that it writes, or the first rule that it breaks.
pub(crate) fn typed(
    lookups: &Lookups<'_>,
    kinds: &[RegisterKind],
    instruction: &ObjectInstruction,
) -> Result<Option<Written>, TypingError>
    ensures { (p : words.Program) → Leaves (kinds_of kinds.now) result (typed lookups.now p (kinds_of kinds.now) (object_instruction_view instruction.now)) }
{
    match instruction {
        ObjectInstruction::LookUp { to, id } => looked_up(lookups, kinds, *to, id.as_str(), false),
        ObjectInstruction::New { to, id } => looked_up(lookups, kinds, *to, id.as_str(), true),
        ObjectInstruction::Sink(object) => object_alone(lookups, kinds, *object),
        ObjectInstruction::Orphan(object) => object_alone(lookups, kinds, *object),
        ObjectInstruction::Dispose(object) => object_alone(lookups, kinds, *object),
        ObjectInstruction::Adopt { to, parent, child } => adopted(
            lookups, kinds, *to, *parent, *child,
        ),
    }
}
