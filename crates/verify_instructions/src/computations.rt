//! Types instructions that only use registers.

ghost use Rattle.std.specs.Prelude.{◌≡◌};
ghost use Rattle.g_values.specs.View.{kind_view};
ghost use Rattle.bytecode.specs.Computing.{instruction_of};
ghost use Rattle.bytecode.specs.View.{register_kind_view};
ghost use Rattle.ui_machine.specs.Definition.Programs as words;
ghost use Rattle.law_typing.specs.Rules.Typing.{combining, comparing, converting, is_bool, is_text, joining, moving, negating, reckoning, sameness, two_numbers, two_passing, typed};
ghost use Rattle.verify_operands.specs.Views.{Leaves, Tests, kinds_of};

use bytecode::{Computation, Register, RegisterKind};
use g_values::{Kind, kind_of};
use verify_operands::operands::{
    bool_in, comparable_in, convertible_in, same_in, set_in, text_in, whole_in,
};
use verify_operands::{Lookups, Rule, TypingError, Written};

// Returns the kind of two registers, which must have the same kind of whole numbers.
#[tactic(auto, unfolding(law_typing::specs::Rules::Typing::two_numbers))]
fn two_numbers(kinds: &[RegisterKind], a: Register, b: Register) -> Result<RegisterKind, Rule>
    ensures { Tests register_kind_view result (two_numbers (kinds_of kinds.now) a.0 b.0) }
{
    let kind = whole_in(kinds, a)?;
    same_in(kinds, b, &kind)?;
    Ok(kind)
}

// Checks that two registers have truth values, and returns the kind of the second.
#[tactic(auto, unfolding(law_typing::specs::Rules::Typing::two_passing))]
fn two_bools(kinds: &[RegisterKind], a: Register, b: Register) -> Result<RegisterKind, Rule>
    ensures { Tests register_kind_view result (two_passing (kinds_of kinds.now) a.0 b.0 is_bool) }
{
    bool_in(kinds, a)?;
    bool_in(kinds, b)
}

// Checks that two registers have texts, and returns the kind of the second.
#[tactic(auto, unfolding(law_typing::specs::Rules::Typing::two_passing))]
fn two_texts(kinds: &[RegisterKind], a: Register, b: Register) -> Result<RegisterKind, Rule>
    ensures { Tests register_kind_view result (two_passing (kinds_of kinds.now) a.0 b.0 is_text) }
{
    text_in(kinds, a)?;
    text_in(kinds, b)
}

// Types `move d s`.
#[tactic(auto, unfolding(law_typing::specs::Rules::Typing::moving))]
fn moved(
    kinds: &[RegisterKind],
    to: Register,
    from: Register,
) -> Result<Option<Written>, TypingError>
    ensures { Leaves (kinds_of kinds.now) result (moving (kinds_of kinds.now) to.0 from.0) }
{
    let kind = set_in(kinds, from)?;
    Ok(Some(Written { to, kind }))
}

// Types `add d a b`, and the same with `sub` and `mul`.
#[tactic(auto, unfolding(law_typing::specs::Rules::Typing::reckoning))]
fn reckoned(
    kinds: &[RegisterKind],
    to: Register,
    a: Register,
    b: Register,
) -> Result<Option<Written>, TypingError>
    ensures { Leaves (kinds_of kinds.now) result (reckoning (kinds_of kinds.now) to.0 a.0 b.0) }
{
    let kind = two_numbers(kinds, a, b)?;
    Ok(Some(Written { to, kind }))
}

// Types `cmp d op a b`.
#[tactic(auto, unfolding(law_typing::specs::Rules::Typing::comparing))]
fn compared(
    kinds: &[RegisterKind],
    to: Register,
    a: Register,
    b: Register,
) -> Result<Option<Written>, TypingError>
    ensures { Leaves (kinds_of kinds.now) result (comparing (kinds_of kinds.now) to.0 a.0 b.0) }
{
    two_numbers(kinds, a, b)?;
    Ok(Some(Written::truth(to)))
}

// Types `same d a b`.
#[tactic(auto, unfolding(law_typing::specs::Rules::Typing::sameness))]
fn compared_same(
    lookups: &Lookups<'_>,
    kinds: &[RegisterKind],
    to: Register,
    a: Register,
    b: Register,
) -> Result<Option<Written>, TypingError>
    ensures { Leaves (kinds_of kinds.now) result (sameness lookups.now (kinds_of kinds.now) to.0 a.0 b.0) }
{
    let kind = set_in(kinds, a)?;
    comparable_in(lookups, kinds, b, &kind)?;
    Ok(Some(Written::truth(to)))
}

// Types `not d a`.
#[tactic(auto, unfolding(law_typing::specs::Rules::Typing::negating))]
fn negated(
    kinds: &[RegisterKind],
    to: Register,
    a: Register,
) -> Result<Option<Written>, TypingError>
    ensures { Leaves (kinds_of kinds.now) result (negating (kinds_of kinds.now) to.0 a.0) }
{
    bool_in(kinds, a)?;
    Ok(Some(Written::truth(to)))
}

// Types `and d a b` and `or d a b`.
#[tactic(auto, unfolding(law_typing::specs::Rules::Typing::combining))]
fn combined(
    kinds: &[RegisterKind],
    to: Register,
    a: Register,
    b: Register,
) -> Result<Option<Written>, TypingError>
    ensures { Leaves (kinds_of kinds.now) result (combining (kinds_of kinds.now) to.0 a.0 b.0) }
{
    two_bools(kinds, a, b)?;
    Ok(Some(Written::truth(to)))
}

// Types `join d a b`.
#[tactic(auto, unfolding(law_typing::specs::Rules::Typing::joining))]
fn joined(
    kinds: &[RegisterKind],
    to: Register,
    a: Register,
    b: Register,
) -> Result<Option<Written>, TypingError>
    ensures { Leaves (kinds_of kinds.now) result (joining (kinds_of kinds.now) to.0 a.0 b.0) }
{
    let kind = two_texts(kinds, a, b)?;
    Ok(Some(Written { to, kind }))
}

// Types `convert d a k`.
#[tactic(auto, unfolding(law_typing::specs::Rules::Typing::converting))]
fn converted(
    lookups: &Lookups<'_>,
    kinds: &[RegisterKind],
    to: Register,
    a: Register,
    kind: &Kind,
) -> Result<Option<Written>, TypingError>
    ensures { Leaves (kinds_of kinds.now) result (converting lookups.now (kinds_of kinds.now) to.0 a.0 (kind_view kind.now)) }
{
    convertible_in(lookups, kinds, a, kind)?;
    Ok(Some(Written {
        to,
        kind: RegisterKind::Plain(*kind),
    }))
}

/// Types a computation. Returns the register that it writes, or the first rule that it breaks.
pub(crate) fn typed(
    lookups: &Lookups<'_>,
    kinds: &[RegisterKind],
    to: Register,
    computation: &Computation,
) -> Result<Option<Written>, TypingError>
    ensures { (p : words.Program) → Leaves (kinds_of kinds.now) result (typed lookups.now p (kinds_of kinds.now) (instruction_of computation.now to.0)) }
{
    match computation {
        Computation::Const(value) => Ok(Some(Written {
            to,
            kind: RegisterKind::Plain(kind_of(value)),
        })),
        Computation::Move(from) => moved(kinds, to, *from),
        Computation::Clear => Ok(Some(Written {
            to,
            kind: RegisterKind::Unset,
        })),
        Computation::Arithmetic(_, a, b) => reckoned(kinds, to, *a, *b),
        Computation::Compare(_, a, b) => compared(kinds, to, *a, *b),
        Computation::Same(a, b) => compared_same(lookups, kinds, to, *a, *b),
        Computation::Not(a) => negated(kinds, to, *a),
        Computation::And(a, b) | Computation::Or(a, b) => combined(kinds, to, *a, *b),
        Computation::Join(a, b) => joined(kinds, to, *a, *b),
        Computation::Convert(a, kind) => converted(lookups, kinds, to, *a, kind),
    }
}
