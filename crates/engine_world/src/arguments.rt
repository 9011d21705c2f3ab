//! The arguments that an event gives to an emission, and the details of signals.

ghost use Rattle.std.specs.Prelude.{◌≡◌, [], Ok, map, option_map, string_bytes, IfOk, OnOk};
ghost use Rattle.std.specs.Rc.{rc_str_bytes};
ghost use Rattle.ui_machine.specs.Rules.Connections.{detail_at, detail_in};
ghost use Rattle.ui_machine.specs.Rules.Events.{given_values};
ghost use Rattle.g_values.specs.View.{value_view};
ghost use Rattle.definition_format.specs.Meaning.{given_view};
ghost use Rattle.engine_world.specs.Able.{Able};
ghost use Rattle.engine_world.specs.GivenView.{detail_of, detail_named, shared_detail_of};
ghost use Rattle.engine_world.specs.View.{world_of};

use crate::engine::Engine;
use definition_format::Given;
use definitions::Definition;
use g_values::Value;
use std::alloc::AllocError;
use std::rc::RcStr;
use type_tree::TypeId;
use ui_machine::{ObjectId, SignalId};

/// Adds the values that an event gives to `values`, which has to be empty. A given place becomes the object that the builder holds there,
/// and the builder has to hold one.
///
/// # Errors
///
/// `AllocError` if memory is refused.
pub fn add_operands(
    engine: &Engine,
    given: &[Given],
    values: &mut Vec<Value>,
) -> Result<(), AllocError>
    requires able { Able (given_values (world_of engine.now.world) (map given_view given.now)) }
    requires none { values.now.items ≡ [] }
    ensures { OnOk result (given_values (world_of engine.now.world) (map given_view given.now) ≡ Ok (map value_view values.new.items)) }
{
    for one in given {
        let Some(value) = engine.world.given(one)? else {
            unreachable!()
        };
        values.push(value)?;
    }
    Ok(())
}

// Returns the name, as its spec has it, of the property that a detail of `notify` names. The class has to have that property.
fn property_named<'a>(definition: &'a Definition, class: TypeId, name: &str) -> &'a RcStr
    requires able { Able (detail_named definition.now class name.now) }
    ensures { detail_named definition.now class name.now ≡ Ok (rc_str_bytes result.now) }
{
    let Some(slot) = definition.slot(class, name) else {
        unreachable!()
    };
    let Some(spec) = definition.spec(class, slot) else {
        unreachable!()
    };
    &spec.name
}

/// Returns a detail as it is kept for the signal of `class` with this number: for `notify` the name of the property as its spec has it, and
/// for any other signal the text itself. The signal has to be detailed, and a detail of `notify` has to name a property.
///
/// # Errors
///
/// `AllocError` if memory is refused.
pub fn detail_for(
    engine: &Engine,
    definition: &Definition,
    class: TypeId,
    signal: SignalId,
    detail: Option<&str>,
) -> Result<Option<String>, AllocError>
    requires able { Able (detail_at definition.now class signal (option_map (λ text. text.now) detail)) }
    ensures { IfOk result (λ own. detail_at definition.now class signal (option_map (λ text. text.now) detail.entry) ≡ Ok (detail_of own)) }
{
    let Some(detail) = detail else {
        return Ok(None);
    };
    if signal != 0 {
        return Ok(Some(String::from_str(engine.alloc, detail)?));
    }
    let name = property_named(definition, class, detail);
    Ok(Some(String::from_str(engine.alloc, name.as_str())?))
}

/// Returns a detail as [`detail_for`] does, for a signal of an object.
///
/// # Errors
///
/// `AllocError` if memory is refused.
pub fn detail_in(
    engine: &Engine,
    definition: &Definition,
    object: ObjectId,
    signal: SignalId,
    detail: Option<&str>,
) -> Result<Option<String>, AllocError>
    requires able { Able (detail_in definition.now (world_of engine.now.world) object.0 signal (option_map (λ text. text.now) detail)) }
    ensures { IfOk result (λ own. detail_in definition.now (world_of engine.now.world) object.0 signal (option_map (λ text. text.now) detail.entry) ≡ Ok (detail_of own)) }
{
    let class = engine.world.table.class_of(object);
    detail_for(engine, definition, class, signal, detail)
}

// Returns the detail of an emission as `detail_for` does, with a text that is shared.
fn shared_detail_for(
    definition: &Definition,
    class: TypeId,
    signal: SignalId,
    detail: &Option<RcStr>,
) -> Result<Option<RcStr>, AllocError>
    requires able { Able (detail_at definition.now class signal (shared_detail_of detail.now)) }
    ensures { IfOk result (λ own. detail_at definition.now class signal (shared_detail_of detail.now) ≡ Ok (shared_detail_of own)) }
{
    let Some(detail) = detail else {
        return Ok(None);
    };
    if signal != 0 {
        return Ok(Some(detail.clone()?));
    }
    let name = property_named(definition, class, detail.as_str());
    Ok(Some(name.clone()?))
}

/// Returns the detail of an emission as it is kept for a signal of an object. Its text is shared, so that no memory is asked for.
///
/// # Errors
///
/// `AllocError` if the text has 2^64 - 1 sharers.
pub fn shared_detail_in(
    engine: &Engine,
    definition: &Definition,
    object: ObjectId,
    signal: SignalId,
    detail: &Option<RcStr>,
) -> Result<Option<RcStr>, AllocError>
    requires able { Able (detail_in definition.now (world_of engine.now.world) object.0 signal (shared_detail_of detail.now)) }
    ensures { IfOk result (λ own. detail_in definition.now (world_of engine.now.world) object.0 signal (shared_detail_of detail.now) ≡ Ok (shared_detail_of own)) }
{
    let class = engine.world.table.class_of(object);
    shared_detail_for(definition, class, signal, detail)
}

/// Returns the text of a detail, if there is one.
pub fn as_text(detail: &Option<String>) -> Option<&str>
    ensures { option_map (λ text. text.now) result ≡ option_map (λ text. string_bytes text) detail.now }
{
    match detail {
        Some(detail) => Some(detail.as_str()),
        None => None,
    }
}

/// Returns the text of a shared detail, if there is one.
pub fn shared_text(detail: &Option<RcStr>) -> Option<&str>
    ensures { option_map (λ text. text.now) result ≡ shared_detail_of detail.now }
{
    match detail {
        Some(detail) => Some(detail.as_str()),
        None => None,
    }
}
