//! Tests of the emissions that a host asks for.

ghost use Rattle.std.specs.Prelude.{◌≡◌, ◌↔◌, ◌||◌, IsTrue, is_none, map, option_map};
ghost use Rattle.std.specs.Rc.{rc_str_bytes};
ghost use Rattle.ui_machine.specs.Definition.Properties.{has_flags};
ghost use Rattle.ui_machine.specs.State.Tasks.{emit};
ghost use Rattle.law_typing.specs.Good.Requests.{RequestRead};
ghost use Rattle.definition_format.specs.Meaning.{given_view};

use crate::givens::are_given_of_kinds;
use crate::objects::object_class;
use bitflags::Flags;
use definition_format::Given;
use definitions::Definition;
use signal_core::{DeclaredSignal, SignalFlags};
use std::rc::RcStr;
use ui_machine::{Place, SignalId};

// The first signal of each class, `notify`, which no event emits.
const NOTIFY: SignalId = 0;

// Returns whether a signal takes a detail, or no detail is given.
fn takes_detail(signal: &DeclaredSignal<'_>, detail: &Option<RcStr>) -> bool
    ensures { result ≡ (is_none detail.now || has_flags 16 signal.now.flags.0) }
{
    detail.is_none() || signal.flags.contains(SignalFlags::DETAILED)
}

/// Returns whether an object is at a place and its class has a signal with this number, other than `notify`, that takes these arguments and
/// this detail.
pub(crate) fn is_emission(
    definition: &Definition,
    place: Place,
    number: SignalId,
    args: &[Given],
    detail: &Option<RcStr>,
) -> bool
    ensures { IsTrue result ↔ RequestRead definition.now (emit place.0 number (map given_view args.now) (option_map (λ text. rc_str_bytes text) detail.now)) }
{
    // For the proof: facts about a definition's signals.
    let _types = definition.types();
    let Some(class) = object_class(definition, place) else {
        return false;
    };
    let Some(signal) = definition.signal(class, number) else {
        return false;
    };
    if number == NOTIFY || !takes_detail(&signal, detail) {
        return false;
    }
    are_given_of_kinds(definition, args, signal.params)
}
