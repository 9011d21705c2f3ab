//! Objects of a definition, their given values, bindings and handlers.

use bindings::BindingFlags;
use g_values::Value;
use type_tree::TypeId;
use ui_machine::{Place, ProgramId, Slot};

/// A value that a definition or an event gives, which is a plain value or an object of the definition.
#[derive(Debug, Drop)]
pub enum Given {
    Value(Value),
    /// The object at this place.
    Object(Place),
}

/// A value that is given to a property.
#[derive(Debug, Drop)]
pub struct GivenValue {
    /// The slot of the property in the object's class.
    pub slot: Slot,
    pub given: Given,
}

/// A handler that an object has for a signal: the program that it runs.
#[derive(Debug, Drop)]
pub struct Attached {
    /// The name of the signal.
    pub signal: String,
    /// The detail for which the program runs. Without one it runs for all details.
    pub detail: Option<String>,
    /// The number of the program.
    pub program: ProgramId,
    /// Whether the program runs after the class handler.
    pub after: bool,
    /// Whether the program is given the data first and the object last.
    pub swapped: bool,
    /// The place of the object that is the data.
    pub with: Option<Place>,
}

/// A binding between a property of one object and one of another.
#[derive(Debug, Drop)]
pub struct Bind {
    /// The name by which programs end the binding, if it has one.
    pub name: Option<String>,
    /// The place of the source object.
    pub source: Place,
    /// The slot of the bound property in the source's class.
    pub source_slot: Slot,
    /// The place of the target object, which has the binding among its properties.
    pub target: Place,
    /// The slot of the bound property in the target's class.
    pub target_slot: Slot,
    pub flags: BindingFlags,
    /// The number of the binding's entry among the properties of the target.
    pub at: usize,
}

/// An object of the definition without its id: its class, its parent if it is a child, its peer if its class has a shape, the given values
/// in the given order, and its signals.
#[derive(Drop)]
pub struct ObjectBody {
    pub class: TypeId,
    pub parent: Option<Place>,
    /// The name of its peer. There is at most one.
    pub peers: Vec<String>,
    pub given: Vec<GivenValue>,
    pub signals: Vec<Attached>,
}

/// A prototype without its id: its class, the given values in the given order, and the peers that its objects get.
#[derive(Drop)]
pub struct PrototypeBody {
    pub class: TypeId,
    pub given: Vec<GivenValue>,
    /// The names of the peers, in the order in which objects take them.
    pub peers: Vec<String>,
}
