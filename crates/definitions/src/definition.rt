//! A complete definition, with its look-ups.

ghost use Rattle.std.specs.Prelude.{◌≡◌, ◌<◌, ◌≤◌, ◌+◌, None, ℕ, length, option_and_then, option_map, slice_get, IfOk, IfSome, map};
ghost use Rattle.std.specs.Rc.{rc_str_bytes};
ghost use Rattle.ui_machine.specs.Definition.Names.{place_named};
ghost use Rattle.ui_machine.specs.Definition.Lookups.{class_of, place_of, program_at, program_of, spec_of, specs_of, slot_of, type_of};
ghost use Rattle.ui_machine.specs.Seq.{read};
ghost use Rattle.ui_machine.specs.Rules.Connections.{signal_number};
ghost use Rattle.ui_machine.specs.Rules.Construction.{nearest_shape};
ghost use Rattle.ui_machine.specs.Rules.EmissionPlan.{class_handler_of, signal_of};
ghost use Rattle.bytecode.specs.Known.{HasKnownBlocks};
ghost use Rattle.bytecode.specs.View.{program_view};
ghost use Rattle.param_specs.specs.View.{spec_view};
ghost use Rattle.signal_core.specs.Emission.{begun};
ghost use Rattle.signal_core.specs.Laws.{walk_for};
ghost use Rattle.signal_core.specs.SignalView.{declared_view};
ghost use Rattle.definition_format.specs.Meaning.{AreLimits, IsBasic, bind_view, places_of, class_at, object_count, object_place, plain_object, plain_prototype, planned, meaning};
ghost use Rattle.definition_format.specs.Origin.{IsDenoted};
ghost use Rattle.definitions.specs.ClassNames.{AreSignals};
ghost use Rattle.definitions.specs.EntryView.{entry_view};
ghost use Rattle.definitions.specs.PartsView.{AreRead, parts_of};

use crate::handler_names::handler_names;
use crate::object_entries::ObjectEntry;
use crate::parts::Parts;
use crate::places::{Objects, Prototypes, place_in, position_of};
use crate::programs::{Programs, number_of};
use crate::shapes::{Shapes, shape_number};
use crate::signal_names::{number_as_given, number_in, signal_names};
use crate::types::type_name;
use bytecode::Program;
use definition_format::Bind;
use name_tables::NameTable;
use param_specs::{SlotTable, Spec, SpecTable};
use peer_shapes::Shape;
use signal_core::{ClassHandler, DeclaredSignal, Emission, SignalRows, SignalTable};
use std::alloc::{AllocError, Global};
use std::marker::Model;
use std::rc::RcStr;
use type_tree::{TypeId, TypeTree};
use ui_machine::{Limits, ObjectId, Place, ProgramId, SignalId, Slot};

/// A definition. It has types with their properties and signals, the programs and shapes that classes name, its shapes, programs,
/// prototypes and objects in document order, its bindings, and its limits. Its places are its objects followed by its prototypes. A
/// contract sees it as a definition of the machine.
#[derive(Drop)]
pub struct Definition {
    types: TypeTree,
    specs: SpecTable,
    signals: SignalTable,
    // For each class, the program that it names for its objects once they are constructed.
    constructed: Vec<Option<ProgramId>>,
    shapes: Shapes,
    // For each class, the shape that it names.
    shaped: Vec<Option<usize>>,
    programs: Programs,
    prototypes: Prototypes,
    objects: Objects,
    bindings: Vec<Bind>,
    limits: Limits,
    // The declarations behind the slots and the signal numbers of each class.
    slots: SlotTable,
    rows: SignalRows,
    // The numbers of the signals of each class, by name.
    signal_names: NameTable,
    // The programs that each class runs for signals, by name.
    handler_names: NameTable,
}

impl Model for Definition {
    ghost use Rattle.ui_machine.specs.Definition as machine;

    ghost Value = { machine.Definition };

    ghost use Rattle.definition_format.specs.Meaning.{meaning, parts};
    ghost use Rattle.definitions.specs.PartsView.{AreKept};

    ghost view = { λ d. meaning (parts d.types d.specs d.signals d.constructed.items d.shapes.entries d.shaped.items d.programs.entries d.prototypes.entries d.objects.entries d.bindings.items d.limits) };

    ghost invariant = { λ d. AreKept (parts d.types d.specs d.signals d.constructed.items d.shapes.entries d.shaped.items d.programs.entries d.prototypes.entries d.objects.entries d.bindings.items d.limits) d.slots d.rows d.signal_names d.handler_names };
}

impl Definition {
    /// Makes a definition of its parts. They have to be sound, and some bytes have to denote what they mean.
    ///
    /// # Errors
    ///
    /// `AllocError` if memory is refused.
    pub fn new(alloc: Global, parts: Parts) -> Result<Definition, AllocError>
        requires { AreRead (parts_of parts) }
        ensures { IfOk result (λ d. d ≡ meaning (parts_of parts)) }
    {
        let slots = SlotTable::new(alloc, &parts.types, &parts.specs)?;
        let rows = SignalRows::new(alloc, &parts.types, &parts.signals)?;
        let signal_names = signal_names(alloc, &parts.types, &parts.signals, &rows)?;
        let handler_names = handler_names(alloc, &parts.types, &parts.signals)?;
        Ok(Definition {
            types: parts.types,
            specs: parts.specs,
            signals: parts.signals,
            constructed: parts.constructed,
            shapes: parts.shapes,
            shaped: parts.shaped,
            programs: parts.programs,
            prototypes: parts.prototypes,
            objects: parts.objects,
            bindings: parts.bindings,
            limits: parts.limits,
            slots,
            rows,
            signal_names,
            handler_names,
        })
    }

    /// Returns the types. The contract also says that some bytes denote the definition.
    pub fn types(&self) -> &TypeTree
        ensures types { result.now ≡ self.now.types }
        ensures basic { IsBasic self.now }
        ensures denoted { IsDenoted self.now }
    {
        &self.types
    }

    /// Returns the limits: how many objects may live at a time, and how many handlers programs may connect. `Limits::check` accepts them.
    pub fn limits(&self) -> Limits
        ensures objects { result.objects ≡ self.now.most_objects }
        ensures handlers { result.handlers ≡ self.now.most_handlers }
        ensures checked { AreLimits result }
    {
        self.limits
    }

    /// Returns the number of objects, which is not more than may live. They are the first places, and all other places are prototypes.
    pub fn object_count(&self) -> usize
        ensures count { result ≡ object_count self.now }
        ensures few { result ≤ self.now.most_objects }
    {
        self.objects.len()
    }

    /// Returns the number of places, which are the objects and the prototypes.
    pub fn place_count(&self) -> usize
        ensures count { result ≡ length self.now.places }
        ensures few { result ≤ 512 }
    {
        self.objects.len() + self.prototypes.len()
    }

    /// Returns the object or prototype at a place, or `None` if there is none.
    pub fn object(&self, place: usize) -> Option<ObjectEntry<'_>>
        ensures { option_map entry_view result ≡ slice_get self.now.places place }
    {
        let count = self.objects.len();
        if place < count {
            return object_entry(&self.objects, place);
        }
        prototype_entry(&self.prototypes, place - count)
    }

    /// Returns the number of bindings.
    pub fn binding_count(&self) -> usize
        ensures { result ≡ length self.now.bindings }
    {
        self.bindings.len()
    }

    /// Returns the binding with this number in document order, or `None` if there is none.
    pub fn binding(&self, number: usize) -> Option<&Bind>
        ensures { option_map (λ b. bind_view b.now) result ≡ slice_get self.now.bindings number }
    {
        self.bindings.get(number)
    }

    /// Returns the place of the object or prototype with this id.
    pub fn place(&self, id: &str) -> Option<Place>
        ensures { option_map (λ p. p.0) result ≡ place_of self.now id.now }
    {
        let place = place_in(&self.objects, &self.prototypes, id)?;
        Some(Place(place as u16))
    }

    /// Returns the place of the object with this id.
    pub fn object_place(&self, id: &str) -> Option<Place>
        ensures { option_map (λ p. p.0) result ≡ object_place self.now id.now }
    {
        let number = position_of(&self.objects, id)?;
        Some(Place(number as u16))
    }

    /// Returns the class of the object or prototype at a place, or the first class if there is none.
    pub fn class_at(&self, place: Place) -> TypeId
        ensures { result ≡ class_at self.now place.0 }
    {
        match self.object(usize::from(place.0)) {
            Some(entry) => entry.class,
            None => TypeId::new(0),
        }
    }

    /// Returns the spec of a class's property by its slot, or `None` if there is none.
    pub fn spec(&self, class: TypeId, slot: Slot) -> Option<&Spec>
        ensures { option_map (λ s. spec_view s.now) result ≡ spec_of self.now class slot }
    {
        if class.index() >= self.types.len() {
            return None;
        }
        let place = self.slots.place(class, usize::from(slot))?;
        Some(self.specs.own_spec(place.owner, usize::from(place.at)))
    }

    /// Returns the number of properties of a class, including inherited ones.
    pub fn slots(&self, class: TypeId) -> usize
        ensures slots { result ≡ length (specs_of self.now class) }
        ensures known { 0 < result → class < length self.now.types }
        ensures few { result ≤ 16448 }
    {
        if class.index() >= self.types.len() {
            return 0;
        }
        self.slots.count(class)
    }

    /// Returns the slot of a class's property with this name, in either spelling.
    pub fn slot(&self, class: TypeId, name: &str) -> Option<Slot>
        ensures { result ≡ slot_of self.now class name.now }
    {
        if class.index() >= self.types.len() {
            return None;
        }
        self.specs.find(&self.types, class, name)
    }

    /// Returns the number of a class's signal with this name, in either spelling.
    pub fn signal_number(&self, class: TypeId, name: &str) -> Option<SignalId>
        ensures { result ≡ signal_number self.now class name.now }
    {
        if class.index() >= self.types.len() {
            return None;
        }
        match number_in(&self.signal_names, class, name) {
            Some(number) => number,
            None => self.signals.find(&self.types, class, name),
        }
    }

    /// Collects the names of the signals of all classes, with their numbers.
    ///
    /// # Errors
    ///
    /// `AllocError` if memory is refused.
    pub fn signal_names(&self, alloc: Global) -> Result<NameTable, AllocError>
        ensures { IfOk result (AreSignals self.now) }
    {
        let names = signal_names(alloc, &self.types, &self.signals, &self.rows)?;
        Ok(names)
    }

    /// Returns the signal of a class by its number, or `None` if there are not so many. Number 0 is `notify`.
    pub fn signal(&self, class: TypeId, number: SignalId) -> Option<DeclaredSignal<'_>>
        ensures { option_map declared_view result ≡ signal_of self.now class number }
    {
        if class.index() >= self.types.len() {
            return None;
        }
        self.signals
            .signal_in(&self.rows, &self.types, class, number)
    }

    /// Returns the number of signals of a class, including `notify`.
    pub fn signal_count(&self, class: TypeId) -> usize
        ensures count { result ≡ length (class_of self.now class).signals }
        ensures few { result ≤ 16385 }
    {
        if class.index() >= self.types.len() {
            return 0;
        }
        self.rows.count(class) + 1
    }

    /// Returns the program that a class runs for the signal with this number. The class itself names it, or else its nearest ancestor that
    /// names one.
    pub fn class_handler(&self, class: TypeId, number: SignalId) -> Option<ProgramId>
        ensures { result ≡ option_and_then (λ s. class_handler_of self.now class s.name) (signal_of self.now class number) }
    {
        let Some(signal) = self.signal(class, number) else {
            return None;
        };
        number_as_given(&self.handler_names, class, signal.name)
    }

    /// Returns the emission with which an object emits the signal with this number of its class, with a detail. Returns `None` if the class
    /// has no signal with this number.
    pub fn emission(
        &self,
        class: TypeId,
        object: ObjectId,
        number: SignalId,
        detail: Option<RcStr>,
    ) -> Option<Emission>
        ensures { (greatest : ℕ) → option_map (λ e. begun e greatest) result
            ≡ option_map (λ s. walk_for greatest s.accumulator
            (planned self.now class object.0 number (option_map (λ text. rc_str_bytes text) detail) s))
            (signal_of self.now class number) }
    {
        if class.index() >= self.types.len() {
            return None;
        }
        self.signals
            .emission(&self.types, class, object, number, detail)
    }

    /// Returns the program that a class itself names for its objects once they are constructed.
    pub fn constructed(&self, class: TypeId) -> Option<ProgramId>
        ensures { result ≡ (class_of self.now class).constructed }
    {
        if class.index() >= self.types.len() {
            return None;
        }
        number_at(self.constructed.as_slice(), class.index())
    }

    /// Returns the number of a class's shape. The class itself names it, or else its nearest ancestor that names one.
    pub fn shape_number(&self, class: TypeId) -> Option<usize>
        ensures { result ≡ nearest_shape self.now class }
    {
        shape_number(&self.types, self.shaped.as_slice(), class)
    }

    /// Returns the number of shapes.
    pub fn shape_count(&self) -> usize
        ensures { result ≡ length self.now.shapes }
    {
        self.shapes.len()
    }

    /// Returns the methods of the shape with this number in document order, or `None` if there are not so many.
    pub fn shape(&self, number: usize) -> Option<&Shape>
        ensures { option_map (λ s. s.now) result ≡ option_map (λ s. s.methods) (slice_get self.now.shapes number) }
    {
        let (_, shape) = self.shapes.get_index(number)?;
        Some(shape)
    }

    /// Returns the name of the shape with this number, or an empty text if there are not so many.
    pub fn shape_name(&self, number: usize) -> &str
        ensures { IfSome (slice_get self.now.shapes number) (λ s. result.now ≡ s.name) }
    {
        match self.shapes.get_index(number) {
            Some((name, _)) => name.as_str(),
            None => "",
        }
    }

    /// Returns the number of types, which include the classes.
    pub fn class_count(&self) -> usize
        ensures count { result ≡ length self.now.classes }
        ensures few { result ≤ 256 }
    {
        // For the proof: a tree has few types.
        let _ = self.types.parent(TypeId::new(0));
        self.types.len()
    }

    /// Returns the programs that a class itself names for signals, in document order.
    pub fn class_handlers(&self, class: TypeId) -> &[ClassHandler]
        ensures { result.now ≡ (class_of self.now class).handlers }
    {
        if class.index() >= self.types.len() {
            return &[];
        }
        self.signals.own_handlers(class)
    }

    /// Returns the program with this number, or `None` if there is none. The kinds in its code are known, and it has at most 32 registers.
    pub fn program(&self, number: ProgramId) -> Option<&Program>
        ensures program { option_map (λ p. program_view p.now) result ≡ program_at self.now number }
        ensures known { IfSome result (λ p. HasKnownBlocks self.now.types p.now) }
        ensures few { IfSome result (λ p. p.now.registers ≤ 32) }
    {
        let (_, program) = self.programs.get_index(usize::from(number))?;
        Some(program)
    }

    /// Returns the number of the program with this name.
    pub fn program_number(&self, name: &str) -> Option<ProgramId>
        ensures { result ≡ program_of self.now name.now }
    {
        number_of(&self.programs, name)
    }

    /// Returns the name of a class, or an empty text if there is no such class.
    pub fn class_name(&self, class: TypeId) -> &str
        ensures { result.now ≡ (type_of self.now class).name }
    {
        type_name(&self.types, class)
    }
}

// Returns the object with this number, or `None` if there is none.
fn object_entry(objects: &Objects, number: usize) -> Option<ObjectEntry<'_>>
    ensures { option_map entry_view result ≡ slice_get (map plain_object objects.now.entries) number }
{
    let (id, body) = objects.get_index(number)?;
    Some(ObjectEntry {
        id: id.as_str(),
        class: body.class,
        is_prototype: false,
        parent: body.parent,
        peers: body.peers.as_slice(),
        given: body.given.as_slice(),
        signals: body.signals.as_slice(),
    })
}

// Returns the prototype with this number, or `None` if there is none.
fn prototype_entry(prototypes: &Prototypes, number: usize) -> Option<ObjectEntry<'_>>
    ensures { option_map entry_view result ≡ slice_get (map plain_prototype prototypes.now.entries) number }
{
    let (id, body) = prototypes.get_index(number)?;
    Some(ObjectEntry {
        id: id.as_str(),
        class: body.class,
        is_prototype: true,
        parent: None,
        peers: body.peers.as_slice(),
        given: body.given.as_slice(),
        signals: &[],
    })
}

// Returns the number at an index, if one is there.
fn number_at(numbers: &[Option<ProgramId>], place: usize) -> Option<ProgramId>
    ensures { result ≡ read None numbers.now place }
{
    if place < numbers.len() {
        numbers[place]
    } else {
        None
    }
}
