//! Signals as they are declared, and as a table returns them.

use crate::emission::Accumulator;
use crate::flags::SignalFlags;
use g_values::Kind;

/// A signal to be declared (GObject manual, Signals: `g_signal_newv`).
#[derive(Debug, Drop)]
pub struct Signal {
    pub name: String,
    /// The kinds of the arguments.
    pub params: Vec<Kind>,
    /// The kind of the result, if there is one.
    pub result: Option<Kind>,
    pub flags: SignalFlags,
    /// The rule by which the results of an emission are combined. Without one the last result counts.
    pub accumulator: Option<Accumulator>,
}

/// A signal that a type has.
#[derive(Clone, Copy, Debug)]
pub struct DeclaredSignal<'a> {
    /// The name in the canonical spelling.
    pub name: &'a str,
    /// The kinds of the arguments.
    pub params: &'a [Kind],
    /// The kind of the result, if there is one.
    pub result: Option<Kind>,
    pub flags: SignalFlags,
    /// The rule by which the results of an emission are combined. Without one the last result counts.
    pub accumulator: Option<Accumulator>,
}
