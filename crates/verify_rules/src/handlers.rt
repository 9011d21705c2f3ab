//! Finds the first program that a class or an object names, and that does not take what it is given there or gives another result.

ghost use Rattle.std.specs.Prelude.{◌≡◌, ◌++◌, ◌∷◌, [], None, option_map, slice_get, IfOk};
ghost use Rattle.ui_machine.specs.Definition.Kinds as kinds;
ghost use Rattle.ui_machine.specs.Definition.Lookups.{class_of, program_at};
ghost use Rattle.bytecode.specs.View.{register_kind_view};
ghost use Rattle.definition_format.specs.Meaning.{attached_view, place_number};
ghost use Rattle.signal_core.specs.SignalView.{declared_view};
ghost use Rattle.law_typing.specs.Rules.Handlers.{attached_faults, attached_fits, class_faults, class_handler_faults, class_handler_fits, constructed_faults, constructed_fits, handler_faults, place_faults};
ghost use Rattle.law_typing.specs.Rules.Signatures.{given_kinds, is_taken_by};
ghost use Rattle.verify_rules.specs.Faults.{handling_fault};
ghost use Rattle.definitions.specs.EntryView.{entry_view};
ghost use Rattle.verify_rules.specs.Parts.{faults_of_class};

use bytecode::RegisterKind;
use definition_format::Attached;
use definitions::ObjectEntry;
use signal_core::{ClassHandler, DeclaredSignal};
use std::alloc::{AllocError, Global};
use type_tree::TypeId;
use ui_machine::{Place, ProgramId};
use verify_instructions::signatures::{given_kinds, takes, takes_detail, text_of};
use verify_operands::Lookups;

/// The use of a program that does not take what it is given there, or gives another result.
#[derive(Clone, Copy, Debug, PartialEq, Eq)]
pub enum Handling {
    /// A class names it for a signal, with the number of the handler among the class's own.
    ClassHandler { class: TypeId, number: usize },
    /// A class names it for its objects once they are constructed.
    Constructed(TypeId),
    /// The object at a place names it for a signal, with the number of the handler among the object's own.
    Attached { place: Place, number: usize },
}

// Returns whether the program with this number takes what it is given for a signal, and gives the result that the signal wants.
fn is_taken_by(
    alloc: Global,
    lookups: &Lookups<'_>,
    program: ProgramId,
    swapped: bool,
    instance: RegisterKind,
    signal: &DeclaredSignal<'_>,
    with: Option<RegisterKind>,
) -> Result<bool, AllocError>
    ensures { IfOk result (λ r. r ≡ is_taken_by lookups.now (program_at lookups.now program)
        (given_kinds swapped (register_kind_view instance) (declared_view signal.now).params (option_map register_kind_view with)) (declared_view signal.now).result) }
{
    let Some(program) = lookups.program(program) else {
        return Ok(false);
    };
    let given = given_kinds(alloc, swapped, instance, signal.params, with.as_ref())?;
    Ok(takes(lookups, program, given.as_slice(), signal.result))
}

// Returns whether the program that a class names for a signal takes an instance of the class and the arguments.
fn class_handler_fits(
    alloc: Global,
    lookups: &Lookups<'_>,
    class: TypeId,
    handler: &ClassHandler,
) -> Result<bool, AllocError>
    ensures { IfOk result (λ r. r ≡ class_handler_fits lookups.now class handler.now) }
{
    let Some(number) = lookups.signal_number(class, handler.signal()) else {
        return Ok(false);
    };
    let Some(signal) = lookups.signal(class, number) else {
        return Ok(false);
    };
    let instance = RegisterKind::NotNull(class);
    is_taken_by(
        alloc,
        lookups,
        handler.program(),
        false,
        instance,
        &signal,
        None,
    )
}

// Returns the first program that a class names for a signal and that does not fit.
fn class_handler_fault(
    alloc: Global,
    lookups: &Lookups<'_>,
    class: TypeId,
) -> Result<Option<Handling>, AllocError>
    ensures { IfOk result (λ r. option_map handling_fault r ≡ slice_get (class_handler_faults lookups.now class 0 (class_of lookups.now class).handlers) 0) }
{
    let handlers = lookups.definition().class_handlers(class);
    for number in 0..handlers.len() {
        if !class_handler_fits(alloc, lookups, class, &handlers[number])? {
            return Ok(Some(Handling::ClassHandler { class, number }));
        }
    }
    Ok(None)
}

// Returns whether a program takes just an instance of a class, and gives no result.
fn constructed_fits(
    alloc: Global,
    lookups: &Lookups<'_>,
    class: TypeId,
    program: ProgramId,
) -> Result<bool, AllocError>
    ensures { IfOk result (λ r. r ≡ constructed_fits lookups.now class program) }
{
    let Some(program) = lookups.program(program) else {
        return Ok(false);
    };
    let mut given = Vec::new(alloc);
    given.push(RegisterKind::NotNull(class))?;
    Ok(takes(lookups, program, given.as_slice(), None))
}

// Returns the program that a class names for its constructed objects, if it does not fit.
fn constructed_fault(
    alloc: Global,
    lookups: &Lookups<'_>,
    class: TypeId,
) -> Result<Option<Handling>, AllocError>
    ensures { IfOk result (λ r. option_map handling_fault r ≡ slice_get (constructed_faults lookups.now class (class_of lookups.now class).constructed) 0) }
{
    let Some(program) = lookups.definition().constructed(class) else {
        return Ok(None);
    };
    if constructed_fits(alloc, lookups, class, program)? {
        return Ok(None);
    }
    Ok(Some(Handling::Constructed(class)))
}

// Returns the first program that a class names and that does not fit. Those for signals go before the one for constructed objects.
fn fault_of_class(
    alloc: Global,
    lookups: &Lookups<'_>,
    class: TypeId,
) -> Result<Option<Handling>, AllocError>
    ensures { IfOk result (λ r. option_map handling_fault r ≡ slice_get (faults_of_class lookups.now class (class_of lookups.now class)) 0) }
{
    if let Some(handling) = class_handler_fault(alloc, lookups, class)? {
        return Ok(Some(handling));
    }
    constructed_fault(alloc, lookups, class)
}

// Returns the first program that any class names and that does not fit.
fn class_fault(alloc: Global, lookups: &Lookups<'_>) -> Result<Option<Handling>, AllocError>
    ensures { IfOk result (λ r. option_map handling_fault r ≡ slice_get (class_faults lookups.now 0 lookups.now.classes) 0) }
{
    for number in 0..lookups.definition().class_count() {
        let class = TypeId::new(number as u16);
        if let Some(handling) = fault_of_class(alloc, lookups, class)? {
            return Ok(Some(handling));
        }
    }
    Ok(None)
}

// Returns the kind of a handler's data, if it has some, which is the object at a place.
fn data_kind(with: Option<Place>) -> Option<RegisterKind>
    ensures { option_map register_kind_view result ≡ option_map kinds.at (place_number with) }
{
    match with {
        Some(place) => Some(RegisterKind::At(place)),
        None => None,
    }
}

// Returns whether the signal of a handler takes its detail, and its program takes the object, the arguments and the data.
fn attached_fits(
    alloc: Global,
    lookups: &Lookups<'_>,
    place: Place,
    entry: &ObjectEntry<'_>,
    attached: &Attached,
) -> Result<bool, AllocError>
    ensures { IfOk result (λ r. r ≡ attached_fits lookups.now place.0 (entry_view entry.now) (attached_view attached.now)) }
{
    let class = entry.class;
    let Some(number) = lookups.signal_number(class, attached.signal.as_str()) else {
        return Ok(false);
    };
    let Some(signal) = lookups.signal(class, number) else {
        return Ok(false);
    };
    if !takes_detail(lookups, class, number, &signal, text_of(&attached.detail)) {
        return Ok(false);
    }
    is_taken_by(
        alloc,
        lookups,
        attached.program,
        attached.swapped,
        RegisterKind::At(place),
        &signal,
        data_kind(attached.with),
    )
}

// Returns the first handler of an object that does not fit.
fn attached_fault(
    alloc: Global,
    lookups: &Lookups<'_>,
    place: Place,
    entry: &ObjectEntry<'_>,
) -> Result<Option<Handling>, AllocError>
    ensures { IfOk result (λ r. option_map handling_fault r ≡ slice_get (attached_faults lookups.now place.0 (entry_view entry.now) 0 (entry_view entry.now).signals) 0) }
{
    for number in 0..entry.signals.len() {
        if !attached_fits(alloc, lookups, place, entry, &entry.signals[number])? {
            return Ok(Some(Handling::Attached { place, number }));
        }
    }
    Ok(None)
}

// Returns the first handler of any object that does not fit.
fn place_fault(alloc: Global, lookups: &Lookups<'_>) -> Result<Option<Handling>, AllocError>
    ensures { IfOk result (λ r. option_map handling_fault r ≡ slice_get (place_faults lookups.now 0 lookups.now.places) 0) }
{
    let definition = lookups.definition();
    for number in 0..definition.place_count() {
        let Some(entry) = definition.object(number) else {
            return Ok(None);
        };
        let place = Place(number as u16);
        if let Some(handling) = attached_fault(alloc, lookups, place, &entry)? {
            return Ok(Some(handling));
        }
    }
    Ok(None)
}

/// Returns the first program that a class or an object names and that does not take what it is given there. All classes go before all
/// objects.
///
/// # Errors
///
/// `AllocError` if memory is refused.
pub fn handler_fault(alloc: Global, lookups: &Lookups<'_>) -> Result<Option<Handling>, AllocError>
    ensures { IfOk result (λ r. option_map handling_fault r ≡ slice_get (handler_faults lookups.now) 0) }
{
    if let Some(handling) = class_fault(alloc, lookups)? {
        return Ok(Some(handling));
    }
    place_fault(alloc, lookups)
}
