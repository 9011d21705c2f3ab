//! The meaning of the names of a single instruction.

ghost use Rattle.std.specs.Prelude.{◌≡◌};
ghost use Rattle.engine_links.specs.Linked.{bindings_in, detail_in, method_in, place_in, program_in, property_in, signal_in};

use name_tables::NameId;
use ui_machine::{Place, ProgramId};

/// The meaning of the names of an instruction. A name that nothing has is linked to `None`. No instruction of an accepted definition has
/// such a name.
#[derive(Clone, Copy, Debug, PartialEq, Eq)]
pub enum Link {
    /// The instruction has no names.
    Nothing,
    /// A property, by the index of its name.
    Property(Option<NameId>),
    /// An object or a prototype.
    Place(Option<Place>),
    /// A program.
    Program(Option<ProgramId>),
    /// A signal, and the property that its detail would name, by the indexes of their names.
    Emission {
        signal: Option<NameId>,
        detail: Option<NameId>,
    },
    /// A signal, and the property that its detail would name, by the indexes of their names, and a program.
    Connection {
        signal: Option<NameId>,
        detail: Option<NameId>,
        program: Option<ProgramId>,
    },
    /// A method, by the index of its name.
    Method(Option<NameId>),
    /// The bindings with a name, by the index of the name.
    Bindings(Option<NameId>),
}

impl Link {
    /// Returns the property that the instruction names.
    pub fn property(self) -> Option<NameId>
        ensures { result ≡ property_in self }
    {
        match self {
            Link::Property(property) => property,
            _ => None,
        }
    }

    /// Returns the object or prototype that the instruction names.
    pub fn place(self) -> Option<Place>
        ensures { result ≡ place_in self }
    {
        match self {
            Link::Place(place) => place,
            _ => None,
        }
    }

    /// Returns the program that the instruction names.
    pub fn program(self) -> Option<ProgramId>
        ensures { result ≡ program_in self }
    {
        match self {
            Link::Program(program) | Link::Connection { program, .. } => program,
            _ => None,
        }
    }

    /// Returns the signal that the instruction names.
    pub fn signal(self) -> Option<NameId>
        ensures { result ≡ signal_in self }
    {
        match self {
            Link::Emission { signal, .. } | Link::Connection { signal, .. } => signal,
            _ => None,
        }
    }

    /// Returns the property that the instruction's detail would name.
    pub fn detail(self) -> Option<NameId>
        ensures { result ≡ detail_in self }
    {
        match self {
            Link::Emission { detail, .. } | Link::Connection { detail, .. } => detail,
            _ => None,
        }
    }

    /// Returns the method that the instruction names.
    pub fn method(self) -> Option<NameId>
        ensures { result ≡ method_in self }
    {
        match self {
            Link::Method(method) => method,
            _ => None,
        }
    }

    /// Returns the bindings that the instruction names.
    pub fn bindings(self) -> Option<NameId>
        ensures { result ≡ bindings_in self }
    {
        match self {
            Link::Bindings(bindings) => bindings,
            _ => None,
        }
    }
}
