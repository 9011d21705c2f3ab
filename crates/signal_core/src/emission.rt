//! An emission before it begins.

ghost use Rattle.std.specs.Prelude.{◌≡◌, option_map};
ghost use Rattle.g_values.specs.View.{value_view};
ghost use Rattle.ui_machine.specs.Rules.Accumulation.{is_last};
ghost use Rattle.signal_core.specs.Emission.{accumulator_of};

use crate::flags::SignalFlags;
use g_values::Value;
use std::rc::RcStr;
use ui_machine::{ObjectId, ProgramId, SignalId};

/// The rule by which the results of an emission's programs are combined (GObject manual, Signals: GSignalAccumulator). Without an
/// accumulator the last result counts.
#[derive(Clone, Copy, Debug, PartialEq, Eq)]
pub enum Accumulator {
    /// The last result counts, and the emission stops at the first one that is TRUE (`g_signal_accumulator_true_handled`).
    TrueHandled,
    /// The first result counts, and the emission stops there (`g_signal_accumulator_first_wins`).
    FirstWins,
}

/// Returns whether a value that a program returned is the last one, which stops the emission.
pub fn is_last(accumulator: Option<Accumulator>, value: &Value) -> bool
    ensures { result ≡ is_last (option_map accumulator_of accumulator) (value_view value.now) }
{
    match accumulator {
        None => false,
        Some(Accumulator::FirstWins) => true,
        Some(Accumulator::TrueHandled) => matches!(value, Value::Bool(true)),
    }
}

/// An emission that is to begin (GObject manual, Signals: `g_signal_emit`).
#[derive(Debug, Drop)]
pub struct Emission {
    /// The object that emits.
    pub object: ObjectId,
    /// The number of the signal in the list of the object's class. 0 is `notify`.
    pub signal: SignalId,
    /// The detail, which is shared with whoever gave it. For `notify` it is a property's canonical name.
    pub detail: Option<RcStr>,
    /// The flags of the signal.
    pub flags: SignalFlags,
    /// The accumulator of the signal.
    pub accumulator: Option<Accumulator>,
    /// The program that the object's class runs for the signal.
    pub class_program: Option<ProgramId>,
}
