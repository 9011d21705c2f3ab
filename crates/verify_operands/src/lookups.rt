//! The look-ups in a definition that typing needs.

ghost use Rattle.std.specs.Prelude.{◌≡◌, ◌≤◌, ℕ, List, Some, length, option_map, slice_get, IfOk, IfSome};
ghost use Rattle.std.specs.List.{list_any};
ghost use Rattle.ui_machine.specs.Definition.Types.{GType};
ghost use Rattle.ui_machine.specs.Definition.Lookups.{place_at, place_of, program_at, program_of, slot_of, spec_of};
ghost use Rattle.ui_machine.specs.Outcome.{known};
ghost use Rattle.ui_machine.specs.Rules.Ancestry.{is_a};
ghost use Rattle.ui_machine.specs.Rules.Connections.{signal_number};
ghost use Rattle.ui_machine.specs.Rules.EmissionPlan.{signal_of};
ghost use Rattle.bytecode.specs.View.{program_view};
ghost use Rattle.param_specs.specs.View.{spec_view};
ghost use Rattle.peer_shapes.specs.MethodViews.{lent_view};
ghost use Rattle.signal_core.specs.SignalView.{declared_view};
ghost use Rattle.law_typing.specs.Rules.Answers as rules;
ghost use Rattle.law_typing.specs.Rules.RegisterKinds.{class_at};
ghost use Rattle.verify_operands.specs.Ancestry.{AreRows, IsRow};
ghost use Rattle.verify_operands.specs.Methods.{method_called};
ghost use Rattle.verify_operands.specs.Parts.{is_named, is_of_prototype};

use crate::bind_names::names_of;
use bytecode::Program;
use definitions::Definition;
use param_specs::Spec;
use peer_shapes::MethodRef;
use signal_core::DeclaredSignal;
use std::alloc::{AllocError, Global};
use std::collections::BTreeSet;
use std::marker::Model;
use type_tree::{MOST_TYPES, TypeId, TypeTree};
use ui_machine::{Place, ProgramId, SignalId, Slot};

// The greatest number of programs of a definition.
const MOST_PROGRAMS: ProgramId = 256;

/// A definition with a table of which types are which, and with the names of its bindings. The contracts see only the definition.
#[derive(Drop)]
pub struct Lookups<'a> {
    definition: &'a Definition,
    // For each type, whether it is each of the others.
    ancestry: Vec<Vec<bool>>,
    bind_names: BTreeSet<String>,
}

impl<'a> Model for Lookups<'a> {
    ghost use Rattle.ui_machine.specs.Definition as machine;

    ghost Value = { machine.Definition };

    ghost use Rattle.verify_operands.specs.Ancestry.{AreRows};
    ghost use Rattle.verify_operands.specs.BindNames.{AreBindNames};

    ghost view = { λ l. l.definition.now };

    ghost invariant = { λ l. AreRows (l.definition.now).types l.ancestry.items × AreBindNames (l.definition.now).bindings l.bind_names };
}

impl<'a> Lookups<'a> {
    /// Creates the look-ups of a definition.
    ///
    /// # Errors
    ///
    /// `AllocError` if memory for the table or the names is refused.
    pub fn new(alloc: Global, definition: &'a Definition) -> Result<Lookups<'a>, AllocError>
        ensures { IfOk result (λ lookups. lookups ≡ definition.now) }
    {
        Ok(Lookups {
            definition,
            ancestry: rows(alloc, definition.types())?,
            bind_names: names_of(alloc, definition)?,
        })
    }

    /// Returns the definition itself.
    pub fn definition(&self) -> &'a Definition
        ensures { result.now ≡ self.now }
    {
        self.definition
    }

    /// Returns the types of the definition.
    pub fn types(&self) -> &TypeTree
        ensures { result.now ≡ self.now.types }
    {
        self.definition.types()
    }

    /// Returns whether a type is `other`, or has it as an ancestor or interface.
    pub fn is_a(&self, t: TypeId, other: TypeId) -> bool
        ensures { result ≡ is_a self.now.types t other }
    {
        match entry(self.ancestry.as_slice(), t, other) {
            Some(answer) => answer,
            None => self.definition.types().is_a(t, other),
        }
    }

    /// Returns the class of the object or prototype at a place, if there is one.
    pub fn class_at(&self, place: Place) -> Option<TypeId>
        ensures { result ≡ class_at self.now place.0 }
    {
        match self.definition.object(usize::from(place.0)) {
            Some(entry) => Some(entry.class),
            None => None,
        }
    }

    /// Returns the place of the object or prototype with this id.
    pub fn place(&self, id: &str) -> Option<Place>
        ensures { option_map (λ p. p.0) result ≡ place_of self.now id.now }
    {
        self.definition.place(id)
    }

    /// Returns whether the place is that of a prototype rather than an object, or `None` if nothing has this place.
    pub fn is_prototype(&self, place: Place) -> Option<bool>
        ensures { result ≡ option_map is_of_prototype (place_at self.now place.0) }
    {
        match self.definition.object(usize::from(place.0)) {
            Some(entry) => Some(entry.is_prototype),
            None => None,
        }
    }

    /// Returns whether a binding has this name.
    pub fn has_binding(&self, name: &str) -> bool
        ensures { result ≡ list_any (is_named name.now) self.now.bindings }
    {
        self.bind_names.contains(name)
    }

    /// Returns the slot of the property with this name in a class.
    pub fn slot(&self, class: TypeId, name: &str) -> Option<Slot>
        ensures { result ≡ slot_of self.now class name.now }
    {
        self.definition.slot(class, name)
    }

    /// Returns the spec of the property in a slot of a class.
    pub fn spec(&self, class: TypeId, slot: Slot) -> Option<&Spec>
        ensures { option_map (λ s. spec_view s.now) result ≡ spec_of self.now class slot }
    {
        self.definition.spec(class, slot)
    }

    /// Returns the number of the signal with this name in a class.
    pub fn signal_number(&self, class: TypeId, name: &str) -> Option<SignalId>
        ensures { result ≡ signal_number self.now class name.now }
    {
        self.definition.signal_number(class, name)
    }

    /// Returns the signal with this number in a class.
    pub fn signal(&self, class: TypeId, number: SignalId) -> Option<DeclaredSignal<'_>>
        ensures { option_map declared_view result ≡ signal_of self.now class number }
    {
        self.definition.signal(class, number)
    }

    /// Returns the method with this name that objects of a class are called with. It is one of the shape of the class, or of its nearest
    /// ancestor that has a shape.
    pub fn method(&self, class: TypeId, name: &str) -> Option<MethodRef<'_>>
        ensures { known rules.unknown (option_map lent_view result) ≡ method_called self.now class name.now }
    {
        let shape = self.definition.shape(self.definition.shape_number(class)?)?;
        shape.method(shape.find(name)?)
    }

    /// Returns the greatest number of programs that a definition may have.
    pub fn most_programs(&self) -> ProgramId
        ensures { length self.now.programs ≤ result }
    {
        // For the proof: a definition has no more.
        let _ = self.definition.types();
        MOST_PROGRAMS
    }

    /// Returns the program with this number.
    pub fn program(&self, number: ProgramId) -> Option<&Program>
        ensures { option_map (λ p. program_view p.now) result ≡ program_at self.now number }
    {
        self.definition.program(number)
    }

    /// Returns the number of the program with this name.
    pub fn program_number(&self, name: &str) -> Option<ProgramId>
        ensures { result ≡ program_of self.now name.now }
    {
        self.definition.program_number(name)
    }
}

// Returns the table that has, for each type, whether it is each of the others.
fn rows(alloc: Global, types: &TypeTree) -> Result<Vec<Vec<bool>>, AllocError>
    ensures { IfOk result (λ rows. AreRows types.now rows.items) }
{
    let mut rows = Vec::new(alloc);
    for number in 0..types.len().min(MOST_TYPES) {
        let row = row(alloc, types, TypeId::new(number as u16))?;
        rows.push(row)?;
    }
    Ok(rows)
}

// Returns the row of the table that has whether the type `t` is each of the others.
fn row(alloc: Global, types: &TypeTree, t: TypeId) -> Result<Vec<bool>, AllocError>
    ensures { IfOk result (λ row. IsRow types.now t row.items) }
{
    let mut row = Vec::new(alloc);
    for number in 0..types.len().min(MOST_TYPES) {
        row.push(types.is_a(t, TypeId::new(number as u16)))?;
    }
    Ok(row)
}

// Returns whether one type is another, or `None` if the table does not have them.
fn entry(rows: &[Vec<bool>], t: TypeId, other: TypeId) -> Option<bool>
    ensures { IfSome result (λ answer. (types : List GType) → AreRows types rows.now → answer ≡ is_a types t other) }
{
    if t.index() >= rows.len() {
        return None;
    }
    entry_in(rows[t.index()].as_slice(), other)
}

// Returns the entry of a row for a type, or `None` if the row does not have it.
fn entry_in(row: &[bool], t: TypeId) -> Option<bool>
    ensures { IfSome result (λ answer. slice_get row.now t ≡ Some answer) }
{
    if t.index() >= row.len() {
        return None;
    }
    Some(row[t.index()])
}
