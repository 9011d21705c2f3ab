//! Finds the first binding that breaks a rule (GObject manual, GBinding).

ghost use Rattle.std.specs.Prelude.{◌≡◌, Some, option_map, slice_get};
ghost use Rattle.ui_machine.specs.Definition.Kinds as kinds;
ghost use Rattle.ui_machine.specs.Rules.Transform.{same_kind};
ghost use Rattle.g_values.specs.View.{kind_view};
ghost use Rattle.param_specs.specs.View.{spec_view};
ghost use Rattle.definition_format.specs.Meaning.{bind_view};
ghost use Rattle.law_typing.specs.Graph.Channels.{is_pair, same_channel, source_of, spec_at, target_of};
ghost use Rattle.law_typing.specs.Rules.BindingRules.{binding_faults, is_invertible, word_between, word_of, word_one_way};
ghost use Rattle.verify_rules.specs.Faults.{broken_fault, word_view};

use bindings::BindingFlags;
use bitflags::Flags;
use definition_format::Bind;
use g_values::{Kind, transformable};
use param_specs::Spec;
use ui_machine::{Place, Slot};
use verify_operands::Lookups;

/// The rules of bindings, in the order in which they are tested.
#[derive(Clone, Copy, Debug, PartialEq, Eq)]
pub enum BindingRule {
    /// Both ends are the same property.
    Same,
    /// The source is not readable.
    Readable,
    /// The target is not writable.
    Writable,
    /// The target is set only by constructions.
    ConstructOnly,
    /// There is no transformation between the kinds.
    Kinds,
    /// The binding inverts other values than truth values.
    Invert,
}

/// A binding that breaks a rule, with its number.
#[derive(Clone, Copy, Debug, PartialEq, Eq)]
pub struct BrokenBinding {
    pub binding: usize,
    pub rule: BindingRule,
}

/// Returns whether a binding is bidirectional.
pub fn is_pair(binding: &Bind) -> bool
    ensures { result ≡ is_pair (bind_view binding.now) }
{
    binding.flags.contains(BindingFlags::BIDIRECTIONAL)
}

// Returns whether both ends of a binding are the same property.
fn is_same_end(binding: &Bind) -> bool
    ensures { result ≡ same_channel (source_of (bind_view binding.now)) (target_of (bind_view binding.now)) }
{
    binding.source.0 == binding.target.0 && binding.source_slot == binding.target_slot
}

// Returns whether a kind is that of truth values.
fn is_truth(kind: Kind) -> bool
    ensures { result ≡ same_kind (kind_view kind) kinds.bool }
{
    matches!(kind, Kind::Bool)
}

// Returns whether two kinds may be bound with or without an inversion. With one, both must be truth values.
fn is_invertible(inverts: bool, source: Kind, target: Kind) -> bool
    ensures { result ≡ is_invertible inverts (kind_view source) (kind_view target) }
{
    !inverts || is_truth(source) && is_truth(target)
}

// Returns the first rule that a binding breaks in one direction.
fn rule_one_way(
    lookups: &Lookups<'_>,
    inverts: bool,
    source: &Spec,
    target: &Spec,
) -> Option<BindingRule>
    ensures { option_map word_view result ≡ word_one_way lookups.now inverts (spec_view source.now) (spec_view target.now) }
{
    if !source.is_readable() {
        return Some(BindingRule::Readable);
    }
    if !target.is_writable() {
        return Some(BindingRule::Writable);
    }
    if target.is_construct_only() {
        return Some(BindingRule::ConstructOnly);
    }
    if !transformable(lookups.types(), source.kind, target.kind) {
        return Some(BindingRule::Kinds);
    }
    if !is_invertible(inverts, source.kind, target.kind) {
        return Some(BindingRule::Invert);
    }
    None
}

// Returns the spec of a property of the object or prototype at a place.
fn spec_at<'l>(lookups: &'l Lookups<'_>, place: Place, slot: Slot) -> Option<&'l Spec>
    ensures { option_map (λ s. spec_view s.now) result ≡ spec_at lookups.now place.0 slot }
{
    match lookups.class_at(place) {
        Some(class) => lookups.spec(class, slot),
        None => None,
    }
}

// Returns the first rule that a binding breaks from one property to another. Both must exist.
fn rule_between(
    lookups: &Lookups<'_>,
    inverts: bool,
    source: Option<&Spec>,
    target: Option<&Spec>,
) -> Option<BindingRule>
    ensures { option_map word_view result ≡ word_between lookups.now inverts (option_map (λ s. spec_view s.now) source.entry) (option_map (λ s. spec_view s.now) target.entry) }
{
    let Some(source) = source else {
        return Some(BindingRule::Readable);
    };
    let Some(target) = target else {
        return Some(BindingRule::Writable);
    };
    rule_one_way(lookups, inverts, source, target)
}

// Returns the first rule that a binding breaks, forwards and then, if it is bidirectional, backwards.
fn rule_of(lookups: &Lookups<'_>, binding: &Bind) -> Option<BindingRule>
    ensures { option_map word_view result ≡ word_of lookups.now (bind_view binding.now) }
{
    if is_same_end(binding) {
        return Some(BindingRule::Same);
    }
    let inverts = binding.flags.contains(BindingFlags::INVERT_BOOLEAN);
    let source = spec_at(lookups, binding.source, binding.source_slot);
    let target = spec_at(lookups, binding.target, binding.target_slot);
    if let Some(rule) = rule_between(lookups, inverts, source, target) {
        return Some(rule);
    }
    if !is_pair(binding) {
        return None;
    }
    rule_between(lookups, inverts, target, source)
}

/// Returns the first binding that breaks a rule, and the rule.
pub fn binding_fault(lookups: &Lookups<'_>) -> Option<BrokenBinding>
    ensures { option_map broken_fault result ≡ slice_get (binding_faults lookups.now) 0 }
{
    let definition = lookups.definition();
    for number in 0..definition.binding_count() {
        let binding = definition.binding(number)?;
        if let Some(rule) = rule_of(lookups, binding) {
            return Some(BrokenBinding {
                binding: number,
                rule,
            });
        }
    }
    None
}
