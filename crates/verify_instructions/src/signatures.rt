//! The kinds of what programs are given when they run for signals and sources, and whether they take it.

ghost use Rattle.std.specs.Prelude.{◌≡◌, ◌++◌, length, map, option_map, string_bytes, IfOk, OnOk, Some};
ghost use Rattle.g_values.specs.View.{kind_view};
ghost use Rattle.bytecode.specs.View.{program_view, register_kind_view};
ghost use Rattle.signal_core.specs.SignalView.{declared_view};
ghost use Rattle.ui_machine.specs.Definition.Kinds as kinds;
ghost use Rattle.law_typing.specs.Rules.Signatures.{data_kinds, given_kinds, parameters_fit, result_fits, takes, takes_detail};
ghost use Rattle.law_typing.specs.Rules.Typing.{program_named};
ghost use Rattle.verify_operands.specs.Views.{Tests, kinds_of};

use bitflags::Flags;
use bytecode::{Program, RegisterKind};
use g_values::Kind;
use signal_core::{DeclaredSignal, SignalFlags};
use std::alloc::{AllocError, Global};
use type_tree::TypeId;
use ui_machine::SignalId;
use verify_operands::fits::{fits, fits_plain};
use verify_operands::{Lookups, Rule};

/// Returns the program with this name.
#[tactic(auto, unfolding(law_typing::specs::Rules::Typing::program_named))]
pub(crate) fn program_named<'l>(lookups: &'l Lookups<'_>, name: &str) -> Result<&'l Program, Rule>
    ensures { Tests (λ p. program_view p.now) result (program_named lookups.now name.now) }
{
    let Some(number) = lookups.program_number(name) else {
        return Err(Rule::Unknown);
    };
    match lookups.program(number) {
        Some(program) => Ok(program),
        None => Err(Rule::Unknown),
    }
}

// Appends the kind of the data, if there is some.
fn push_data(given: &mut Vec<RegisterKind>, with: Option<&RegisterKind>) -> Result<(), AllocError>
    ensures { OnOk result (kinds_of given.new.items ≡ kinds_of given.old.items ++ data_kinds (option_map (λ k. register_kind_view k.now) with.entry)) }
{
    if let Some(kind) = with {
        given.push(*kind)?;
    }
    Ok(())
}

// Appends the kinds of the arguments.
fn push_params(given: &mut Vec<RegisterKind>, params: &[Kind]) -> Result<(), AllocError>
    ensures { OnOk result (kinds_of given.new.items ≡ kinds_of given.old.items ++ map kinds.plain (map kind_view params.now)) }
{
    for kind in params {
        given.push(RegisterKind::Plain(*kind))?;
    }
    Ok(())
}

/// Returns the kinds of what a handler is given: the instance, the arguments and its data, or if swapped, the data, the arguments and the
/// instance.
///
/// # Errors
///
/// `AllocError` if memory is refused.
pub fn given_kinds(
    alloc: Global,
    swapped: bool,
    instance: RegisterKind,
    params: &[Kind],
    with: Option<&RegisterKind>,
) -> Result<Vec<RegisterKind>, AllocError>
    ensures { IfOk result (λ given. kinds_of given.items ≡ given_kinds swapped (register_kind_view instance) (map kind_view params.now) (option_map (λ k. register_kind_view k.now) with.entry)) }
{
    let mut given = Vec::new(alloc);
    if swapped {
        push_data(&mut given, with)?;
        push_params(&mut given, params)?;
        given.push(instance)?;
    } else {
        given.push(instance)?;
        push_params(&mut given, params)?;
        push_data(&mut given, with)?;
    }
    Ok(given)
}

/// Returns the kinds of what a source's program is given, which is its data if there is some.
pub(crate) fn given_data(
    alloc: Global,
    with: Option<&RegisterKind>,
) -> Result<Vec<RegisterKind>, AllocError>
    ensures { IfOk result (λ given. kinds_of given.items ≡ data_kinds (option_map (λ k. register_kind_view k.now) with.entry)) }
{
    let mut given = Vec::new(alloc);
    push_data(&mut given, with)?;
    Ok(given)
}

// Returns whether each thing that is given fits its parameter. There must be as many of them as parameters.
fn all_fit(lookups: &Lookups<'_>, given: &[RegisterKind], params: &[RegisterKind]) -> bool
    requires { length given.now ≡ length params.now }
    ensures { result ≡ parameters_fit lookups.now (kinds_of given.now) (kinds_of params.now) }
{
    for number in 0..given.len() {
        if !fits(lookups, &given[number], &params[number]) {
            return false;
        }
    }
    true
}

// Returns whether each thing that is given fits its parameter, and there are as many of them as parameters.
#[tactic(auto, using(crate::proofs::ParameterLists::other_count))]
fn parameters_fit(lookups: &Lookups<'_>, given: &[RegisterKind], params: &[RegisterKind]) -> bool
    ensures { result ≡ parameters_fit lookups.now (kinds_of given.now) (kinds_of params.now) }
{
    if given.len() != params.len() {
        return false;
    }
    all_fit(lookups, given, params)
}

// Returns whether a result of this kind fits the kind that is wanted. It does not if no result is wanted.
fn gives(lookups: &Lookups<'_>, kind: Kind, wanted: Option<Kind>) -> bool
    ensures { result ≡ result_fits lookups.now (Some (kind_view kind)) (option_map kind_view wanted) }
{
    match wanted {
        None => false,
        Some(wanted) => fits_plain(lookups, &RegisterKind::Plain(kind), &wanted),
    }
}

// Returns whether a program's result is what is wanted. A program without a result fits only if none is wanted.
fn result_fits(lookups: &Lookups<'_>, result_kind: Option<Kind>, wanted: Option<Kind>) -> bool
    ensures { result ≡ result_fits lookups.now (option_map kind_view result_kind) (option_map kind_view wanted) }
{
    match result_kind {
        None => wanted.is_none(),
        Some(kind) => gives(lookups, kind, wanted),
    }
}

/// Returns whether a program takes what it is given, and its result is what is wanted.
pub fn takes(
    lookups: &Lookups<'_>,
    program: &Program,
    given: &[RegisterKind],
    wanted: Option<Kind>,
) -> bool
    ensures { result ≡ takes lookups.now (program_view program.now) (kinds_of given.now) (option_map kind_view wanted) }
{
    parameters_fit(lookups, given, program.params.as_slice())
        && result_fits(lookups, program.result, wanted)
}

/// Returns an optional text as a slice.
pub fn text_of(text: &Option<String>) -> Option<&str>
    ensures { option_map (λ s. s.now) result ≡ option_map string_bytes text.now }
{
    match text {
        Some(text) => Some(text.as_str()),
        None => None,
    }
}

/// Returns whether signal `number` of a class takes this detail, which it always does if there is none. A detail of `notify`, which is
/// signal 0, must name a property.
pub fn takes_detail(
    lookups: &Lookups<'_>,
    class: TypeId,
    number: SignalId,
    signal: &DeclaredSignal<'_>,
    detail: Option<&str>,
) -> bool
    ensures { result ≡ takes_detail lookups.now class number (declared_view signal.now) (option_map (λ s. s.now) detail.entry) }
{
    let Some(detail) = detail else {
        return true;
    };
    if number == 0 {
        lookups.slot(class, detail).is_some()
    } else {
        signal.flags.contains(SignalFlags::DETAILED)
    }
}
