//! From where a class has its properties and signals.

ghost use Rattle.std.specs.List.{find};
ghost use Rattle.std.specs.Option.{unwrap_or};
ghost use Rattle.std.specs.Prelude.{◌≡◌, is_some};
ghost use Rattle.ui_machine.specs.Definition.Lookups.{slot_of, type_of};
ghost use Rattle.ui_machine.specs.Rules.Connections.{signal_number};
ghost use Rattle.class_texts.specs.Owners.{interface_or_class, interface_with, property_owner, signal_class, signal_owner};

use definitions::Definition;
use type_tree::TypeId;

/// Returns the class that declares the property of a class with this name, which is the class itself or an ancestor.
pub(crate) fn property_owner(definition: &Definition, class: TypeId, name: &str) -> TypeId
    ensures { result ≡ property_owner definition.now class name.now }
{
    let mut owner = class;
    let mut at = class;
    'line: loop {
        if definition.slot(at, name).is_none() {
            return owner;
        }
        owner = at;
        let Some(parent) = definition.types().parent(at) else {
            return owner;
        };
        at = parent;
    }
}

/// Returns the type that declares the signal of a class with this name: the class itself or an ancestor, or an interface of one of them.
pub(crate) fn signal_owner(definition: &Definition, class: TypeId, name: &str) -> TypeId
    ensures { result ≡ signal_owner definition.now class name.now }
{
    let class = signal_class(definition, class, name);
    match interface_with(definition, class, name) {
        Some(interface) => interface,
        None => class,
    }
}

// Returns the class with which the signal of a class with this name came, which is the class itself or an ancestor.
fn signal_class(definition: &Definition, class: TypeId, name: &str) -> TypeId
    ensures { result ≡ signal_class definition.now class name.now }
{
    let mut owner = class;
    let mut at = class;
    'line: loop {
        if definition.signal_number(at, name).is_none() {
            return owner;
        }
        owner = at;
        let Some(parent) = definition.types().parent(at) else {
            return owner;
        };
        at = parent;
    }
}

// Returns the first of a class's interfaces that has a signal with this name.
fn interface_with(definition: &Definition, class: TypeId, name: &str) -> Option<TypeId>
    ensures { result ≡ interface_with definition.now class name.now }
{
    definition.types().interfaces(class).iter().copied().find(|interface| definition
        .signal_number(*interface, name)
        .is_some())
}
