//! Details of signals that programs name (GObject manual, Signals: `signal::detail`).

ghost use Rattle.std.specs.Prelude.{◌≡◌, ◌==◌, None, Ok, Some, IfOk, if◌then◌else◌, option_map, string_bytes};
ghost use Rattle.ui_machine.specs.Rules.Connections.{detail_in};
ghost use Rattle.engine_links.specs.Linked.{IsDetail};
ghost use Rattle.engine_links.specs.Linked as linked;
ghost use Rattle.engine_world.specs.Able.{Able};
ghost use Rattle.engine_world.specs.GivenView.{detail_named, detail_of, shared_detail_of};
ghost use Rattle.engine_world.specs.View.{world_of};

use definitions::Definition;
use engine_links::Link;
use engine_world::arguments;
use engine_world::engine::Engine;
use std::alloc::AllocError;
use std::rc::RcStr;
use type_tree::TypeId;
use ui_machine::{ObjectId, SignalId};

// Returns the name of the property that a detail of `notify` names. The instruction's link says which property it is.
fn property_named(
    engine: &Engine,
    definition: &Definition,
    class: TypeId,
    detail: &str,
    link: Link,
) -> Result<String, AllocError>
    requires able { Able (detail_named definition.now class detail.now) }
    requires link { IsDetail definition.now engine.now.links (Some detail.now) (linked.detail_in link) }
    ensures { IfOk result (λ text. detail_named definition.now class detail.now ≡ Ok (string_bytes text)) }
{
    let Some(at) = link.detail() else {
        unreachable!()
    };
    let Some(name) = engine.links.property_name(at) else {
        unreachable!()
    };
    Ok(String::from_str(engine.alloc, name)?)
}

// Returns the detail if the signal is `notify`, and None for any other signal.
fn notified(signal: SignalId, detail: Option<&str>) -> Option<&str>
    ensures { result ≡ (if signal == 0 then detail.entry else None) }
{
    if signal == 0 { detail } else { None }
}

/// Returns a detail as it is kept for a signal of an object. The signal has to be detailed, and a detail of `notify` has to name a
/// property, which the instruction's link says.
///
/// # Errors
///
/// `AllocError` if memory is refused.
pub(crate) fn detail_in(
    engine: &Engine,
    definition: &Definition,
    object: ObjectId,
    signal: SignalId,
    detail: Option<&str>,
    link: Link,
) -> Result<Option<String>, AllocError>
    requires able { Able (detail_in definition.now (world_of engine.now.world) object.0 signal (option_map (λ text. text.now) detail)) }
    requires link { IsDetail definition.now engine.now.links (option_map (λ text. text.now) detail) (linked.detail_in link) }
    ensures { IfOk result (λ own. detail_in definition.now (world_of engine.now.world) object.0 signal (option_map (λ text. text.now) detail.entry) ≡ Ok (detail_of own)) }
{
    let Some(text) = notified(signal, detail) else {
        // No name is looked up here.
        return arguments::detail_in(engine, definition, object, signal, detail);
    };
    let class = engine.world.table.class_of(object);
    let name = property_named(engine, definition, class, text, link)?;
    Ok(Some(name))
}

// Turns the text of a detail into a shared one.
fn shared(detail: Option<String>) -> Result<Option<RcStr>, AllocError>
    ensures { IfOk result (λ text. shared_detail_of text ≡ detail_of detail) }
{
    match detail {
        Some(detail) => Ok(Some(RcStr::from_string(detail)?)),
        None => Ok(None),
    }
}

/// Returns the detail of an emission as it is kept for a signal of an object. Its text is shared with the program. A detail of `notify`
/// asks for memory, but no program of an accepted definition emits `notify`.
///
/// # Errors
///
/// `AllocError` if the text has 2^64 - 1 sharers, or for `notify` if memory is refused.
pub(crate) fn shared_detail_in(
    engine: &Engine,
    definition: &Definition,
    object: ObjectId,
    signal: SignalId,
    detail: &Option<RcStr>,
    link: Link,
) -> Result<Option<RcStr>, AllocError>
    requires able { Able (detail_in definition.now (world_of engine.now.world) object.0 signal (shared_detail_of detail.now)) }
    requires link { IsDetail definition.now engine.now.links (shared_detail_of detail.now) (linked.detail_in link) }
    ensures { IfOk result (λ own. detail_in definition.now (world_of engine.now.world) object.0 signal (shared_detail_of detail.now) ≡ Ok (shared_detail_of own)) }
{
    if signal != 0 {
        return arguments::shared_detail_in(engine, definition, object, signal, detail);
    }
    let text = arguments::shared_text(detail);
    let own = detail_in(engine, definition, object, signal, text, link)?;
    shared(own)
}
