//! The beginning of an emission of a type's signal.

ghost use Rattle.std.specs.Prelude.{◌≡◌, ℕ, option_map, slice_get};
ghost use Rattle.std.specs.Rc.{rc_str_bytes};
ghost use Rattle.signal_core.specs.Emission.{begun};
ghost use Rattle.signal_core.specs.Laws.{walk_for};
ghost use Rattle.signal_core.specs.Sources.{signals_of};
ghost use Rattle.signal_core.specs.Table.{planned_for};

use crate::emission::Emission;
use crate::table::SignalTable;
use std::rc::RcStr;
use type_tree::{TypeId, TypeTree};
use ui_machine::{ObjectId, SignalId};

impl SignalTable {
    /// Returns the emission with which an object emits the signal with this number and a detail. The type is the object's own class.
    /// Returns `None` if the type has no signal with this number.
    pub fn emission(
        &self,
        tree: &TypeTree,
        t: TypeId,
        object: ObjectId,
        number: SignalId,
        detail: Option<RcStr>,
    ) -> Option<Emission>
        ensures { (greatest : ℕ) → option_map (λ e. begun e greatest) result
            ≡ option_map (λ s. walk_for greatest s.accumulator
            (planned_for tree.now self.now.handlers t object.0 number (option_map (λ d. rc_str_bytes d) detail) s))
            (slice_get (signals_of tree.now self.now.signals t) number) }
    {
        match self.signal(tree, t, number) {
            Some(signal) => Some(Emission {
                object,
                signal: number,
                detail,
                flags: signal.flags,
                accumulator: signal.accumulator,
                class_program: self.handler_named(tree, t, signal.name),
            }),
            None => None,
        }
    }
}
