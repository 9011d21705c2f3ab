//! Checks of single operands, by the kinds of their registers.

ghost use Rattle.std.specs.Prelude.{◌≡◌, None, Some, option_map};
ghost use Rattle.g_values.specs.View.{kind_view};
ghost use Rattle.bytecode.specs.View.{number_of, register_kind_view};
ghost use Rattle.ui_machine.specs.Definition.Kinds as kinds;
ghost use Rattle.ui_machine.specs.Outcome.{known};
ghost use Rattle.law_typing.specs.Rules.Answers as rules;
ghost use Rattle.law_typing.specs.Rules.RegisterKinds.{class_at, kind_in};
ghost use Rattle.law_typing.specs.Rules.Typing.{converts_to, data_in, fitting, is_bool, is_comparable, is_same, is_text, is_whole, may_be_null, operand, passing, set_in};
ghost use Rattle.verify_operands.specs.Views.{Tests, kinds_of, rule_of_value, rule_view};

use crate::fits::{fits_plain, holds_objects};
use crate::kinds::{class_of_plain, is_bool, is_same, is_text, is_whole};
use crate::lookups::Lookups;
use crate::rules::Rule;
use bytecode::{Register, RegisterKind};
use g_values::{Kind, transformable};
use type_tree::TypeId;
use ui_machine::Place;

/// Returns the kind of a register.
pub fn kind_in(kinds: &[RegisterKind], register: Register) -> RegisterKind
    ensures { register_kind_view result ≡ kind_in (kinds_of kinds.now) register.0 }
{
    if register.0 < kinds.len() {
        kinds[register.0]
    } else {
        RegisterKind::Unset
    }
}

/// Returns the kind of a register, which must be set.
///
/// # Errors
///
/// Returns `Unset` if it is not.
pub fn set_in(kinds: &[RegisterKind], register: Register) -> Result<RegisterKind, Rule>
    ensures { Tests register_kind_view result (set_in (kinds_of kinds.now) register.0) }
{
    let kind = kind_in(kinds, register);
    match kind {
        RegisterKind::Unset => Err(Rule::Unset),
        _ => Ok(kind),
    }
}

// Returns the rule that is broken if a register with this kind of values is used as an object: it may be null, or is no object.
fn rule_of_value(kind: Kind) -> Rule
    ensures { rule_view result ≡ rule_of_value (kind_view kind) }
{
    match kind {
        Kind::Object(_) => Rule::Null,
        _ => Rule::Kind,
    }
}

// Returns the class of the object at a place.
fn class_of_place(lookups: &Lookups<'_>, place: Place) -> Result<TypeId, Rule>
    ensures { Tests (λ t. t) result (known rules.kind (class_at lookups.now place.0)) }
{
    match lookups.class_at(place) {
        Some(t) => Ok(t),
        None => Err(Rule::Kind),
    }
}

/// Returns the class of an object operand.
///
/// # Errors
///
/// Returns `Unset` if the register is not set, `Null` if its object may be null, or `Kind` if it has no object.
#[tactic(auto, using(crate::proofs::RegisterLists::of_value))]
pub fn operand(
    lookups: &Lookups<'_>,
    kinds: &[RegisterKind],
    object: Register,
) -> Result<TypeId, Rule>
    ensures { Tests (λ t. t) result (operand lookups.now (kinds_of kinds.now) object.0) }
{
    match kind_in(kinds, object) {
        RegisterKind::Unset => Err(Rule::Unset),
        RegisterKind::Plain(kind) => Err(rule_of_value(kind)),
        RegisterKind::NotNull(t) => Ok(t),
        RegisterKind::At(place) => class_of_place(lookups, place),
        RegisterKind::AtOrNull(_) => Err(Rule::Null),
    }
}

/// Returns the kind of an operand with data, if there is one.
///
/// # Errors
///
/// Returns the errors of `operand` if there is a register.
#[tactic(auto, unfolding(law_typing::specs::Rules::Typing::data_in))]
pub fn data_in(
    lookups: &Lookups<'_>,
    kinds: &[RegisterKind],
    with: Option<Register>,
) -> Result<Option<RegisterKind>, Rule>
    ensures { Tests (option_map register_kind_view) result (data_in lookups.now (kinds_of kinds.now) (option_map number_of with)) }
{
    let Some(register) = with else {
        return Ok(None);
    };
    operand(lookups, kinds, register)?;
    Ok(Some(kind_in(kinds, register)))
}

/// Returns the kind of a register, which must have whole numbers.
///
/// # Errors
///
/// Returns `Unset` if the register is not set, or `Kind` if it is of another kind.
#[tactic(auto, unfolding(law_typing::specs::Rules::Typing::passing))]
pub fn whole_in(kinds: &[RegisterKind], register: Register) -> Result<RegisterKind, Rule>
    ensures { Tests register_kind_view result (passing (kinds_of kinds.now) register.0 is_whole) }
{
    let kind = set_in(kinds, register)?;
    if !is_whole(&kind) {
        return Err(Rule::Kind);
    }
    Ok(kind)
}

/// Returns the kind of a register, which must have the same kind of values as `other`.
///
/// # Errors
///
/// Returns `Unset` if the register is not set, or `Kind` if it is of another kind.
#[tactic(auto, unfolding(law_typing::specs::Rules::Typing::passing))]
pub fn same_in(
    kinds: &[RegisterKind],
    register: Register,
    other: &RegisterKind,
) -> Result<RegisterKind, Rule>
    ensures { Tests register_kind_view result (passing (kinds_of kinds.now) register.0 (is_same (register_kind_view other.now))) }
{
    let kind = set_in(kinds, register)?;
    if !is_same(other, &kind) {
        return Err(Rule::Kind);
    }
    Ok(kind)
}

/// Returns the kind of a register, which must have truth values.
///
/// # Errors
///
/// Returns `Unset` if the register is not set, or `Kind` if it is of another kind.
#[tactic(auto, unfolding(law_typing::specs::Rules::Typing::passing))]
pub fn bool_in(kinds: &[RegisterKind], register: Register) -> Result<RegisterKind, Rule>
    ensures { Tests register_kind_view result (passing (kinds_of kinds.now) register.0 is_bool) }
{
    let kind = set_in(kinds, register)?;
    if !is_bool(&kind) {
        return Err(Rule::Kind);
    }
    Ok(kind)
}

/// Returns the kind of a register, which must have texts.
///
/// # Errors
///
/// Returns `Unset` if the register is not set, or `Kind` if it is of another kind.
#[tactic(auto, unfolding(law_typing::specs::Rules::Typing::passing))]
pub fn text_in(kinds: &[RegisterKind], register: Register) -> Result<RegisterKind, Rule>
    ensures { Tests register_kind_view result (passing (kinds_of kinds.now) register.0 is_text) }
{
    let kind = set_in(kinds, register)?;
    if !is_text(&kind) {
        return Err(Rule::Kind);
    }
    Ok(kind)
}

// Returns whether `same` can compare two kinds: they are the same kind of values, or both have objects.
fn is_comparable(lookups: &Lookups<'_>, left: &RegisterKind, right: &RegisterKind) -> bool
    ensures { result ≡ is_comparable lookups.now (register_kind_view left.now) (register_kind_view right.now) }
{
    is_same(left, right) || holds_objects(lookups, left) && holds_objects(lookups, right)
}

/// Returns the kind of a register, which `same` must be able to compare with the kind `other`.
///
/// # Errors
///
/// Returns `Unset` if the register is not set, or `Kind` if it is of another kind.
#[tactic(auto, unfolding(law_typing::specs::Rules::Typing::passing))]
pub fn comparable_in(
    lookups: &Lookups<'_>,
    kinds: &[RegisterKind],
    register: Register,
    other: &RegisterKind,
) -> Result<RegisterKind, Rule>
    ensures { Tests register_kind_view result (passing (kinds_of kinds.now) register.0 (is_comparable lookups.now (register_kind_view other.now))) }
{
    let kind = set_in(kinds, register)?;
    if !is_comparable(lookups, other, &kind) {
        return Err(Rule::Kind);
    }
    Ok(kind)
}

// Returns whether there is a transformation from one kind of values to another, neither of them of objects.
fn is_convertible(lookups: &Lookups<'_>, from: &Kind, to: &Kind) -> bool
    ensures { result ≡ converts_to lookups.now (kind_view to.now) (kinds.plain (kind_view from.now)) }
{
    class_of_plain(*from).is_none()
        && class_of_plain(*to).is_none()
        && transformable(lookups.types(), *from, *to)
}

// Returns whether there is a transformation from the kind of a register to a kind of values.
fn converts_to(lookups: &Lookups<'_>, to: &Kind, kind: &RegisterKind) -> bool
    ensures { result ≡ converts_to lookups.now (kind_view to.now) (register_kind_view kind.now) }
{
    match *kind {
        RegisterKind::Plain(from) => is_convertible(lookups, &from, to),
        _ => false,
    }
}

/// Returns the kind of a register, which must be convertible to a kind of values.
///
/// # Errors
///
/// Returns `Unset` if the register is not set, or `Kind` if it is of another kind.
#[tactic(auto, unfolding(law_typing::specs::Rules::Typing::passing))]
pub fn convertible_in(
    lookups: &Lookups<'_>,
    kinds: &[RegisterKind],
    register: Register,
    to: &Kind,
) -> Result<RegisterKind, Rule>
    ensures { Tests register_kind_view result (passing (kinds_of kinds.now) register.0 (converts_to lookups.now (kind_view to.now))) }
{
    let kind = set_in(kinds, register)?;
    if !converts_to(lookups, to, &kind) {
        return Err(Rule::Kind);
    }
    Ok(kind)
}

/// Returns the kind of a register, which must fit a kind of values.
///
/// # Errors
///
/// Returns `Unset` if the register is not set, or `Kind` if it is of another kind.
#[tactic(auto, unfolding(law_typing::specs::Rules::Typing::passing))]
pub fn fitting(
    lookups: &Lookups<'_>,
    kinds: &[RegisterKind],
    register: Register,
    wanted: &Kind,
) -> Result<RegisterKind, Rule>
    ensures { Tests register_kind_view result (fitting lookups.now (kinds_of kinds.now) register.0 (kind_view wanted.now)) }
{
    let kind = set_in(kinds, register)?;
    if !fits_plain(lookups, &kind, wanted) {
        return Err(Rule::Kind);
    }
    Ok(kind)
}

// Returns whether a register may hold null, which is so for texts and objects.
fn may_be_null(lookups: &Lookups<'_>, kind: &RegisterKind) -> bool
    ensures { result ≡ may_be_null lookups.now (register_kind_view kind.now) }
{
    is_text(kind) || holds_objects(lookups, kind)
}

/// Returns the kind of a register, which must be one that may hold null.
///
/// # Errors
///
/// Returns `Unset` if the register is not set, or `Kind` if it is of another kind.
#[tactic(auto, unfolding(law_typing::specs::Rules::Typing::passing))]
pub fn nullable_in(
    lookups: &Lookups<'_>,
    kinds: &[RegisterKind],
    register: Register,
) -> Result<RegisterKind, Rule>
    ensures { Tests register_kind_view result (passing (kinds_of kinds.now) register.0 (may_be_null lookups.now)) }
{
    let kind = set_in(kinds, register)?;
    if !may_be_null(lookups, &kind) {
        return Err(Rule::Kind);
    }
    Ok(kind)
}
