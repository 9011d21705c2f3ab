//! Validation, which brings a value into the range of its property's spec (GObject manual, g_param_value_validate).

ghost use Rattle.std.specs.Prelude.{◌≡◌, ◌↔◌, IsTrue, ◌≤ℤ◌, ℤ, ℕ, pos, cond, false, not, nat_eq, bit_and, List, Option, None, Some, IfSome};
ghost use Rattle.std.specs.Ordering.{int_eq};
ghost use Rattle.ui_machine.specs.Definition.Values as values;
ghost use Rattle.ui_machine.specs.Definition.Kinds as kinds;
ghost use Rattle.ui_machine.specs.Definition.Kinds.{int, uint, int64, uint64};
ghost use Rattle.ui_machine.specs.Definition.Types.{GType, enum, flags};
ghost use Rattle.ui_machine.specs.Output.Text.{members_of};
ghost use Rattle.ui_machine.specs.Rules.Transform.{same_value, least, greatest, has_number, known_bits};
ghost use Rattle.ui_machine.specs.Rules.Validation.{clamp, limited, is_valid};
ghost use Rattle.type_tree.specs.Adding.{sort_of};
ghost use Rattle.g_values.specs.View.{kind_view, value_view, value_kind, IsKnown};
ghost use Rattle.param_specs.specs.View.{spec_view};
ghost use Rattle.param_specs.specs.Validation.{Takes, KnowsClass, IsWithin, Corrects};

use crate::spec::Spec;
use g_values::{Kind, Value, kind_of};
use type_tree::{TypeId, TypeTree};
use ui_machine::ObjectId;

/// Validates a value for a property, and returns it with whether it was changed. A number is clamped to the range, a number that is not of
/// an enum member becomes the default, unknown bits are cleared, and an object of another type becomes null. The declared type of an object
/// value has to be the object's own class. The result has the kind of the given value, and so for an object its declared type. A value that
/// the spec does not take (see `takes`) is returned unchanged.
#[tactic(auto, using(crate::proofs::Same::same_value_refl))]
pub fn validate(tree: &TypeTree, spec: &Spec, value: Value) -> (Value, bool)
    ensures value { Takes tree.now spec.now value → (living_class : ℕ → Option ℕ) → KnowsClass living_class value
        → value_view result.0 ≡ clamp living_class tree.now (spec_view spec.now) (value_view value) }
    ensures kind { value_kind result.0 ≡ value_kind value }
    ensures changed { Takes tree.now spec.now value → (living_class : ℕ → Option ℕ) → KnowsClass living_class value
        → result.1 ≡ not (same_value (clamp living_class tree.now (spec_view spec.now) (value_view value)) (value_view value)) }
    ensures untaken { (Takes tree.now spec.now value → ⊥) → (result.0 ≡ value) × (result.1 ≡ false) }
{
    if !takes(tree, spec, &value) {
        return (value, false);
    }
    match corrected(tree, spec, &value) {
        Some(corrected) => (corrected, true),
        None => (value, false),
    }
}

/// Returns whether validation can make each value of this value's kind valid: for an integer, the spec's range lies within its kind, and
/// for an enum, the spec's default is of that enum.
pub fn takes(tree: &TypeTree, spec: &Spec, value: &Value) -> bool
    ensures { IsTrue result ↔ Takes tree.now spec.now value.now }
{
    match value {
        Value::Bool(_) => true,
        Value::Int(_) => has_range_of_int(spec),
        Value::UInt(_) => has_range_of_uint(spec),
        Value::Int64(_) => has_range_of_int64(spec),
        Value::UInt64(_) => has_range_of_uint64(spec),
        Value::Text(_) => true,
        Value::Enum(t, _) => tree.is_enum(*t) && kind_of(&spec.default) == Kind::Enum(*t),
        Value::Flags(t, _) => tree.is_flags(*t),
        Value::Object(_, _) => true,
    }
}

// Returns whether both ends of the range fit an `i32`.
fn has_range_of_int(spec: &Spec) -> bool
    ensures { IsTrue result ↔ IsWithin int spec.now }
{
    has_range_within(spec, i128::from(i32::MIN), i128::from(i32::MAX))
}

// Returns whether both ends of the range fit a `u32`.
fn has_range_of_uint(spec: &Spec) -> bool
    ensures { IsTrue result ↔ IsWithin uint spec.now }
{
    has_range_within(spec, 0, i128::from(u32::MAX))
}

// Returns whether both ends of the range fit an `i64`.
fn has_range_of_int64(spec: &Spec) -> bool
    ensures { IsTrue result ↔ IsWithin int64 spec.now }
{
    has_range_within(spec, i128::from(i64::MIN), i128::from(i64::MAX))
}

// Returns whether both ends of the range fit a `u64`.
fn has_range_of_uint64(spec: &Spec) -> bool
    ensures { IsTrue result ↔ IsWithin uint64 spec.now }
{
    has_range_within(spec, 0, i128::from(u64::MAX))
}

// Returns whether both ends of the range lie from `low` to `high`, both included.
fn has_range_within(spec: &Spec, low: i128, high: i128) -> bool
    ensures min { IsTrue result → (low ≤ℤ spec.now.min) × (spec.now.min ≤ℤ high) }
    ensures max { IsTrue result → (low ≤ℤ spec.now.max) × (spec.now.max ≤ℤ high) }
    ensures all { low ≤ℤ spec.now.min → spec.now.min ≤ℤ high → low ≤ℤ spec.now.max → spec.now.max ≤ℤ high → IsTrue result }
{
    lies_within(spec.min, low, high) && lies_within(spec.max, low, high)
}

// Returns whether a number lies from `low` to `high`, both included.
fn lies_within(number: i128, low: i128, high: i128) -> bool
    ensures { IsTrue result ↔ (low ≤ℤ number) × (number ≤ℤ high) }
{
    low <= number && number <= high
}

// Returns the value that replaces `value`, or `None` if `value` is valid.
fn corrected(tree: &TypeTree, spec: &Spec, value: &Value) -> Option<Value>
    requires { Takes tree.now spec.now value.now }
    ensures kind { IfSome result (λ w. value_kind w ≡ value_kind value.now) }
    ensures value { (living_class : ℕ → Option ℕ) → KnowsClass living_class value.now
        → Corrects result (clamp living_class tree.now (spec_view spec.now) (value_view value.now)) (value_view value.now) }
{
    match value {
        Value::Bool(_) => None,
        Value::Int(n) => corrected_int(spec, *n),
        Value::UInt(n) => corrected_uint(spec, *n),
        Value::Int64(n) => corrected_int64(spec, *n),
        Value::UInt64(n) => corrected_uint64(spec, *n),
        Value::Text(_) => None,
        Value::Enum(t, n) => corrected_enum(tree, spec, *t, *n),
        Value::Flags(t, bits) => corrected_flags(tree, *t, *bits),
        Value::Object(_, None) => None,
        Value::Object(t, Some(id)) => corrected_object(tree, spec, *t, *id),
    }
}

// Clamps a number to the range of a spec.
fn nearest(spec: &Spec, number: i128) -> i128
    ensures nearest { result ≡ limited spec.now.min spec.now.max number }
    ensures low { (n : ℤ) → n ≤ℤ spec.now.min → n ≤ℤ spec.now.max → n ≤ℤ number → n ≤ℤ result }
    ensures high { (n : ℤ) → spec.now.min ≤ℤ n → spec.now.max ≤ℤ n → number ≤ℤ n → result ≤ℤ n }
{
    if number < spec.min {
        return spec.min;
    }
    if number > spec.max {
        return spec.max;
    }
    number
}

fn corrected_int(spec: &Spec, number: i32) -> Option<Value>
    requires { IsWithin int spec.now }
    ensures kind { IfSome result (λ w. value_kind w ≡ kinds.whole int) }
    ensures value { Corrects result (values.whole int (limited spec.now.min spec.now.max number)) (values.whole int number) }
{
    let nearest = nearest(spec, i128::from(number));
    if nearest == i128::from(number) {
        return None;
    }
    Some(Value::Int(nearest as i32))
}

fn corrected_uint(spec: &Spec, number: u32) -> Option<Value>
    requires { IsWithin uint spec.now }
    ensures kind { IfSome result (λ w. value_kind w ≡ kinds.whole uint) }
    ensures value { Corrects result (values.whole uint (limited spec.now.min spec.now.max (pos number))) (values.whole uint (pos number)) }
{
    let nearest = nearest(spec, i128::from(number));
    if nearest == i128::from(number) {
        return None;
    }
    Some(Value::UInt(nearest as u32))
}

fn corrected_int64(spec: &Spec, number: i64) -> Option<Value>
    requires { IsWithin int64 spec.now }
    ensures kind { IfSome result (λ w. value_kind w ≡ kinds.whole int64) }
    ensures value { Corrects result (values.whole int64 (limited spec.now.min spec.now.max number)) (values.whole int64 number) }
{
    let nearest = nearest(spec, i128::from(number));
    if nearest == i128::from(number) {
        return None;
    }
    Some(Value::Int64(nearest as i64))
}

fn corrected_uint64(spec: &Spec, number: u64) -> Option<Value>
    requires { IsWithin uint64 spec.now }
    ensures kind { IfSome result (λ w. value_kind w ≡ kinds.whole uint64) }
    ensures value { Corrects result (values.whole uint64 (limited spec.now.min spec.now.max (pos number))) (values.whole uint64 (pos number)) }
{
    let nearest = nearest(spec, i128::from(number));
    if nearest == i128::from(number) {
        return None;
    }
    Some(Value::UInt64(nearest as u64))
}

fn corrected_enum(tree: &TypeTree, spec: &Spec, t: TypeId, number: i32) -> Option<Value>
    requires sort { sort_of tree.now t ≡ enum }
    requires default { value_kind spec.now.default ≡ kinds.enum t }
    ensures kind { IfSome result (λ w. value_kind w ≡ kinds.enum t) }
    ensures value { Corrects result (cond (has_number (members_of tree.now t) number) (values.enum t number) (value_view spec.now.default)) (values.enum t number) }
{
    if tree.has_number(t, i128::from(number)) {
        return None;
    }
    match spec.default {
        Value::Enum(u, default) => {
            if default == number {
                return None;
            }
            Some(Value::Enum(u, default))
        }
        _ => unreachable!(),
    }
}

fn corrected_flags(tree: &TypeTree, t: TypeId, bits: u32) -> Option<Value>
    requires { sort_of tree.now t ≡ flags }
    ensures kind { IfSome result (λ w. value_kind w ≡ kinds.flags t) }
    ensures value { Corrects result (values.flags t (bit_and bits (known_bits (members_of tree.now t)))) (values.flags t bits) }
{
    let known = bits & tree.known_bits(t);
    if known == bits {
        return None;
    }
    Some(Value::Flags(t, known))
}

fn corrected_object(tree: &TypeTree, spec: &Spec, t: TypeId, id: ObjectId) -> Option<Value>
    ensures kind { IfSome result (λ w. value_kind w ≡ kinds.object t) }
    ensures value { (living_class : ℕ → Option ℕ) → living_class id.0 ≡ Some t
        → Corrects result (clamp living_class tree.now (spec_view spec.now) (values.object (Some id.0))) (values.object (Some id.0)) }
{
    match spec.kind {
        Kind::Object(u) => {
            if tree.is_a(t, u) {
                return None;
            }
            Some(Value::Object(t, None))
        }
        _ => Some(Value::Object(t, None)),
    }
}

/// Returns whether the default of a spec is a valid value for it. The default of an object property has to be null.
pub fn is_valid_default(tree: &TypeTree, spec: &Spec) -> bool
    requires { IsKnown tree.now spec.now.kind }
    ensures { result ≡ is_valid (λ id. None) tree.now (spec_view spec.now) (value_view spec.now.default) }
{
    match spec.kind {
        Kind::Bool => matches!(spec.default, Value::Bool(_)),
        Kind::Int => is_valid_int(spec),
        Kind::UInt => is_valid_uint(spec),
        Kind::Int64 => is_valid_int64(spec),
        Kind::UInt64 => is_valid_uint64(spec),
        Kind::Text => is_valid_text(spec),
        Kind::Enum(t) => is_valid_enum(tree, spec, t),
        Kind::Flags(t) => is_valid_flags(tree, spec, t),
        Kind::Object(_) => matches!(spec.default, Value::Object(_, None)),
    }
}

#[tactic(auto, using(crate::proofs::Same::same_value_refl))]
fn is_valid_text(spec: &Spec) -> bool
    requires { kind_view spec.now.kind ≡ kinds.text }
    ensures { (types : List GType) → result ≡ is_valid (λ id. None) types (spec_view spec.now) (value_view spec.now.default) }
{
    match &spec.default {
        Value::Text(_) => true,
        _ => false,
    }
}

// Returns whether a number lies within the range of a spec.
fn is_in_range(spec: &Spec, number: i128) -> bool
    ensures { result ≡ int_eq (limited spec.now.min spec.now.max number) number }
{
    number >= spec.min && number <= spec.max
}

fn is_valid_int(spec: &Spec) -> bool
    requires { kind_view spec.now.kind ≡ kinds.whole int }
    ensures { (types : List GType) → result ≡ is_valid (λ id. None) types (spec_view spec.now) (value_view spec.now.default) }
{
    match spec.default {
        Value::Int(n) => is_in_range(spec, i128::from(n)),
        _ => false,
    }
}

fn is_valid_uint(spec: &Spec) -> bool
    requires { kind_view spec.now.kind ≡ kinds.whole uint }
    ensures { (types : List GType) → result ≡ is_valid (λ id. None) types (spec_view spec.now) (value_view spec.now.default) }
{
    match spec.default {
        Value::UInt(n) => is_in_range(spec, i128::from(n)),
        _ => false,
    }
}

fn is_valid_int64(spec: &Spec) -> bool
    requires { kind_view spec.now.kind ≡ kinds.whole int64 }
    ensures { (types : List GType) → result ≡ is_valid (λ id. None) types (spec_view spec.now) (value_view spec.now.default) }
{
    match spec.default {
        Value::Int64(n) => is_in_range(spec, i128::from(n)),
        _ => false,
    }
}

fn is_valid_uint64(spec: &Spec) -> bool
    requires { kind_view spec.now.kind ≡ kinds.whole uint64 }
    ensures { (types : List GType) → result ≡ is_valid (λ id. None) types (spec_view spec.now) (value_view spec.now.default) }
{
    match spec.default {
        Value::UInt64(n) => is_in_range(spec, i128::from(n)),
        _ => false,
    }
}

fn is_valid_enum(tree: &TypeTree, spec: &Spec, t: TypeId) -> bool
    requires kind { kind_view spec.now.kind ≡ kinds.enum t }
    requires sort { sort_of tree.now t ≡ enum }
    ensures { result ≡ is_valid (λ id. None) tree.now (spec_view spec.now) (value_view spec.now.default) }
{
    match spec.default {
        Value::Enum(u, n) => u == t && tree.has_number(t, i128::from(n)),
        _ => false,
    }
}

fn is_valid_flags(tree: &TypeTree, spec: &Spec, t: TypeId) -> bool
    requires kind { kind_view spec.now.kind ≡ kinds.flags t }
    requires sort { sort_of tree.now t ≡ flags }
    ensures { result ≡ is_valid (λ id. None) tree.now (spec_view spec.now) (value_view spec.now.default) }
{
    match spec.default {
        Value::Flags(u, bits) => u == t && bits & tree.known_bits(t) == bits,
        _ => false,
    }
}
