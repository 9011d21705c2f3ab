//! The meanings of all names in a definition's programs.

ghost use Rattle.std.specs.Prelude.{◌≡◌, ℕ, None, IfOk, option_map, slice_get};
ghost use Rattle.std.specs.Rc.{rc_str_bytes};
ghost use Rattle.ui_machine.specs.Rules.EmissionPlan.{signal_of};
ghost use Rattle.ui_machine.specs.Seq.{read};
ghost use Rattle.signal_core.specs.Emission.{begun};
ghost use Rattle.signal_core.specs.Laws.{walk_for};
ghost use Rattle.definition_format.specs.Meaning.{planned};
ghost use Rattle.name_tables.specs.Names.{number_by};
ghost use Rattle.engine_links.specs.Linked.{AreLinked, handler_at, link_at, method_by, numbers_by};

use crate::class_handlers::class_handlers;
use crate::link::Link;
use crate::programs::link_programs;
use crate::tables::Tables;
use bytecode::BlockNumber;
use definitions::Definition;
use name_tables::NameId;
use signal_core::Emission;
use std::alloc::{AllocError, Global};
use std::marker::Model;
use std::rc::RcStr;
use type_tree::TypeId;
use ui_machine::{ObjectId, ProgramId, SignalId, Slot};

/// The meanings of the names in a definition's programs: the slots of properties and the numbers of signals, by class and name, the numbers
/// of methods, by shape and name, the numbers of bindings, by name, and the link of each instruction.
#[derive(Drop)]
pub struct Links {
    tables: Tables,
    /// The programs that classes run for signals, by class and by the number of the signal.
    handlers: Vec<Vec<Option<ProgramId>>>,
    /// The links of instructions, by program, block and instruction.
    programs: Vec<Vec<Vec<Link>>>,
}

impl Model for Links {
    ghost use Rattle.std.specs.Prelude.{map};
    ghost use Rattle.engine_links.specs.Linked.{Linked};
    ghost use Rattle.engine_links.specs.Steps.{linked_by};

    ghost Value = { Linked };

    ghost view = { λ l. linked_by l.tables (map (λ row. row.items) l.handlers.items) (map (λ p. map (λ b. b.items) p.items) l.programs.items) };
}

impl Links {
    /// Links the programs of a definition. Takes time and memory for each name of each class once, and for each instruction.
    ///
    /// # Errors
    ///
    /// `AllocError` if memory is refused.
    pub fn new(alloc: Global, definition: &Definition) -> Result<Links, AllocError>
        ensures { IfOk result (AreLinked definition.now) }
    {
        let tables = Tables::new(alloc, definition)?;
        let handlers = class_handlers(alloc, definition)?;
        let programs = link_programs(alloc, definition, &tables)?;
        Ok(Links {
            tables,
            handlers,
            programs,
        })
    }

    /// Returns the link of an instruction, or `Link::Nothing` if there is no such instruction.
    pub fn link(&self, program: ProgramId, block: BlockNumber, at: usize) -> Link
        ensures { result ≡ link_at self.now.programs program block.0 at }
    {
        let Some(blocks) = self.programs.get(usize::from(program)) else {
            return Link::Nothing;
        };
        let Some(links) = blocks.get(block.0) else {
            return Link::Nothing;
        };
        match links.get(at) {
            Some(link) => *link,
            None => Link::Nothing,
        }
    }

    /// Returns the slot of a class's property with this name.
    pub fn slot(&self, class: TypeId, name: Option<NameId>) -> Option<Slot>
        ensures { result ≡ number_by self.now.slots class name }
    {
        self.tables.slots.number(class, name?)
    }

    /// Returns the number of a class's signal with this name.
    pub fn signal(&self, class: TypeId, name: Option<NameId>) -> Option<SignalId>
        ensures { result ≡ number_by self.now.signals class name }
    {
        self.tables.signals.number(class, name?)
    }

    /// Returns the number of a shape's method with this name.
    pub fn method(&self, shape: usize, name: Option<NameId>) -> Option<usize>
        ensures { result ≡ method_by self.now.methods shape name }
    {
        self.tables.methods.number(shape, name?)
    }

    /// Returns the numbers of the definition's bindings with this name.
    pub fn bindings(&self, name: Option<NameId>) -> &[u64]
        ensures { result.now ≡ numbers_by self.now.bindings name }
    {
        match name {
            Some(name) => self.tables.bindings.numbers(name),
            None => &[],
        }
    }

    // Returns the program that a class runs for the signal with this number.
    fn class_handler(&self, class: TypeId, number: SignalId) -> Option<ProgramId>
        ensures { result ≡ handler_at self.now.handlers class number }
    {
        let at = class.index();
        if at < self.handlers.len() {
            program_at(&self.handlers[at], number)
        } else {
            None
        }
    }

    /// Returns the emission with which an object emits the signal with this number of its class, with a detail. Returns `None` if the class
    /// has no signal with this number. The links have to belong to the definition.
    pub fn emission(
        &self,
        definition: &Definition,
        class: TypeId,
        object: ObjectId,
        number: SignalId,
        detail: Option<RcStr>,
    ) -> Option<Emission>
        requires { AreLinked definition.now self.now }
        ensures { (greatest : ℕ) → option_map (λ e. begun e greatest) result
            ≡ option_map (λ s. walk_for greatest s.accumulator
            (planned definition.now class object.0 number (option_map (λ text. rc_str_bytes text) detail) s))
            (signal_of definition.now class number) }
    {
        match definition.signal(class, number) {
            Some(signal) => Some(Emission {
                object,
                signal: number,
                detail,
                flags: signal.flags,
                accumulator: signal.accumulator,
                class_program: self.class_handler(class, number),
            }),
            None => None,
        }
    }

    /// Returns the name of a property, in the canonical spelling.
    pub fn property_name(&self, name: NameId) -> Option<&str>
        ensures { option_map (λ text. text.now) result ≡ option_map (λ n. n.name) (slice_get self.now.slots name) }
    {
        self.tables.slots.name(name)
    }
}

// Returns the program for the signal with this number, if there is one.
fn program_at(programs: &[Option<ProgramId>], number: SignalId) -> Option<ProgramId>
    ensures { result ≡ read None programs.now number }
{
    let at = usize::from(number);
    if at < programs.len() {
        programs[at]
    } else {
        None
    }
}
