//! Tests that what an event gives is of the kind of a property or parameter.

ghost use Rattle.std.specs.Prelude.{◌≡◌, ◌↔◌, IsTrue, map, ℕ, true};
ghost use Rattle.std.specs.List.{AllByRecursion, AllZip};
ghost use Rattle.ui_machine.specs.Definition.Kinds as kinds;
ghost use Rattle.ui_machine.specs.Definition.Places.{named};
ghost use Rattle.ui_machine.specs.Rules.Ancestry.{is_a};
ghost use Rattle.ui_machine.specs.Rules.Transform.{kind_fits};
ghost use Rattle.law_typing.specs.Laws.WellRead.{GivenFits, no_class_of};
ghost use Rattle.g_values.specs.View.{kind_view, value_view};
ghost use Rattle.definition_format.specs.Meaning.{IsKnownKind, given_view};

use crate::objects::object_class;
use definition_format::Given;
use definitions::Definition;
use g_values::{Kind, Value};
use type_tree::{TypeId, TypeTree};
use ui_machine::Place;

// Returns whether a value is of a kind. An event names an object by its place, so the only value of an object kind is null.
fn is_of_kind(types: &TypeTree, value: &Value, kind: Kind) -> bool
    requires known { IsKnownKind types.now (kind_view kind) }
    ensures { result ≡ kind_fits no_class_of types.now (value_view value.now) (kind_view kind) }
{
    // For the proof: a number that is read lies in the range of its kind.
    match (value, kind) {
        (Value::Bool(_), Kind::Bool) => true,
        (Value::Int(number), Kind::Int) => {
            let _number = *number;
            true
        }
        (Value::UInt(number), Kind::UInt) => {
            let _number = *number;
            true
        }
        (Value::Int64(number), Kind::Int64) => {
            let _number = *number;
            true
        }
        (Value::UInt64(number), Kind::UInt64) => {
            let _number = *number;
            true
        }
        (Value::Text(_), Kind::Text) => true,
        (Value::Enum(t, number), Kind::Enum(u)) => *t == u
            && types.has_number(u, i128::from(*number)),
        (Value::Flags(t, bits), Kind::Flags(u)) => {
            let _bits = *bits;
            *t == u
        }
        (Value::Object(_, None), Kind::Object(_)) => true,
        _ => false,
    }
}

// Returns whether objects of a class are of a kind.
fn is_class_of_kind(types: &TypeTree, class: TypeId, kind: Kind) -> bool
    ensures { IsTrue result ↔ (type : ℕ) × (kind_view kind ≡ kinds.object type) × (is_a types.now class type ≡ true) }
{
    match kind {
        Kind::Object(t) => types.is_a(class, t),
        _ => false,
    }
}

// Returns whether an object is at a place and is of a kind.
fn is_object_of_kind(definition: &Definition, place: Place, kind: Kind) -> bool
    ensures { IsTrue result ↔ GivenFits definition.now (kind_view kind) (named place.0) }
{
    match object_class(definition, place) {
        Some(class) => is_class_of_kind(definition.types(), class, kind),
        None => false,
    }
}

/// Returns whether what is given is a value of a kind, or an object of it.
pub(crate) fn is_given_of_kind(definition: &Definition, given: &Given, kind: Kind) -> bool
    requires known { IsKnownKind definition.now.types (kind_view kind) }
    ensures { IsTrue result ↔ GivenFits definition.now (kind_view kind) (given_view given.now) }
{
    match given {
        Given::Value(value) => is_of_kind(definition.types(), value, kind),
        Given::Object(place) => is_object_of_kind(definition, *place, kind),
    }
}

/// Returns whether there are as many givens as kinds, each of the kind at its index.
pub(crate) fn are_given_of_kinds(definition: &Definition, givens: &[Given], kinds: &[Kind]) -> bool
    requires known { AllByRecursion (IsKnownKind definition.now.types) (map kind_view kinds.now) }
    ensures { IsTrue result ↔ AllZip (λ given kind. GivenFits definition.now kind given) (map given_view givens.now) (map kind_view kinds.now) }
{
    if givens.len() != kinds.len() {
        return false;
    }
    'givens: for (index, given) in givens.iter().enumerate() {
        if !is_given_of_kind(definition, given, kinds[index]) {
            return false;
        }
    }
    true
}
