//! Declaration of signals.

ghost use Rattle.std.specs.Prelude.{◌≡◌, ◌<◌, ◌≤◌, IfNone, OnErr, OnOk, length, option_map, string_bytes, true};
ghost use Rattle.g_values.specs.View.{kind_view};
ghost use Rattle.type_tree.specs.PropertyName.{is_property_name};
ghost use Rattle.signal_core.specs.Emission.{accumulator_of};
ghost use Rattle.signal_core.specs.SignalView.{signal_view};
ghost use Rattle.signal_core.specs.Sources.{own_of};
ghost use Rattle.signal_core.specs.Table.{AddsSignal, Declares, SameSignals, canonical_signal, declare_fault, takes_result};

use crate::emission::Accumulator;
use crate::fault::{SignalError, SignalFault};
use crate::signal::Signal;
use crate::table::{MOST_SIGNALS, SignalTable};
use g_values::Kind;
use std::alloc::AllocError;
use type_tree::{TypeId, TypeTree, canonical_name, is_property_name};

impl SignalTable {
    /// Declares a signal for a type of the tree, under its canonical name. It comes last among the type's own.
    ///
    /// Tests, in this order: the form of the name, whether the type has a signal of that name, the accumulator, and the number of signals.
    ///
    /// # Errors
    ///
    /// Returns `Refused` with the first test that fails, otherwise `OutOfMemory` if memory is refused. The signals are unchanged then.
    pub fn declare(&mut self, tree: &TypeTree, t: TypeId, signal: Signal) -> Result<(), SignalError>
        requires { t < length tree.now }
        ensures { let s = signal_view signal in
            Declares result (declare_fault tree.now self.old.signals t s) t s self.old self.new }
    {
        if let Some(fault) = self.declare_fault(tree, t, &signal) {
            return Err(SignalError::Refused(fault));
        }
        self.append(t, signal)?;
        Ok(())
    }

    /// Appends a signal to a type's own, under its canonical name. Tests nothing.
    ///
    /// # Errors
    ///
    /// `AllocError` if memory is refused. The signals are unchanged then.
    pub fn append(&mut self, t: TypeId, signal: Signal) -> Result<(), AllocError>
        requires within { t < 256 }
        requires named { is_property_name (string_bytes signal.name) ≡ true }
        requires room { length (own_of self.old.signals t) < 64 }
        ensures ok { OnOk result (AddsSignal self.old.signals self.new.signals t (canonical_signal (signal_view signal))) }
        ensures err { OnErr result (SameSignals self.old.signals self.new.signals) }
        ensures handlers { self.new.handlers ≡ self.old.handlers }
    {
        let name = canonical_name(self.allocator(), signal.name.as_str())?;
        let signal = renamed(signal, name);
        self.add_own(t, signal)?;
        Ok(())
    }

    // Returns why a signal may not be declared, or `None` if it may.
    fn declare_fault(&self, tree: &TypeTree, t: TypeId, signal: &Signal) -> Option<SignalFault>
        ensures fault { result ≡ declare_fault tree.now self.now.signals t (signal_view signal.now) }
        ensures named { IfNone result (is_property_name (string_bytes signal.now.name) ≡ true) }
        ensures room { IfNone result (length (own_of self.now.signals t) < 64) }
        ensures few { IfNone result (length tree.now ≤ 256) }
    {
        if !is_property_name(signal.name.as_str()) {
            return Some(SignalFault::BadName);
        }
        if self.find(tree, t, signal.name.as_str()).is_some() {
            return Some(SignalFault::Duplicate);
        }
        if !takes_result(signal.accumulator, signal.result) {
            return Some(SignalFault::AccumulatorKind);
        }
        if self.line_count(tree, t) >= MOST_SIGNALS {
            return Some(SignalFault::Limit);
        }
        None
    }
}

// Returns whether an accumulator can combine results of this kind.
fn takes_result(accumulator: Option<Accumulator>, kind: Option<Kind>) -> bool
    ensures { result ≡ takes_result (option_map accumulator_of accumulator) (option_map kind_view kind) }
{
    match accumulator {
        None => true,
        Some(Accumulator::TrueHandled) => matches!(kind, Some(Kind::Bool)),
        Some(Accumulator::FirstWins) => kind.is_some(),
    }
}

// Returns the signal under another name.
fn renamed(signal: Signal, name: String) -> Signal
    ensures { signal_view result ≡ record (signal_view signal) { name = string_bytes name } }
{
    let mut signal = signal;
    signal.name = name;
    signal
}
