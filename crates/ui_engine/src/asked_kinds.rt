//! The kind of the value that an event asks for.

ghost use Rattle.std.specs.Prelude.{◌≡◌, option_map};
ghost use Rattle.g_values.specs.View.{kind_view};
ghost use Rattle.definition_format.specs.Meaning.{request_of};
ghost use Rattle.ui_engine.specs.AskedKinds.{kind_of_request};

use definition_format::Request;
use definitions::Definition;
use g_values::Kind;

/// Returns the kind of the property that a request reads, or of the result of the signal that it emits. Other requests ask for no value.
pub(crate) fn kind_of_request(definition: &Definition, request: &Request) -> Option<Kind>
    ensures { option_map kind_view result ≡ kind_of_request definition.now (request_of request.now) }
{
    match request {
        Request::Get { place, slot } => {
            let spec = definition.spec(definition.class_at(*place), *slot)?;
            Some(spec.kind)
        }
        Request::Emit { place, signal, .. } => {
            let Some(declared) = definition.signal(definition.class_at(*place), *signal) else {
                return None;
            };
            declared.result
        }
        Request::Set { .. } | Request::Release { .. } => None,
    }
}
