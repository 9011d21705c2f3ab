//! An emission that is under way.

ghost use Rattle.std.specs.Prelude.{◌≡◌, ◌&&◌, nat_eq, nat_le, nat_lt, option_map, string_bytes};
ghost use Rattle.g_values.specs.View.{value_view};
ghost use Rattle.ui_machine.specs.Definition.Properties.{has_flags};
ghost use Rattle.ui_machine.specs.Rules.EmissionPlan.{fits_detail};

use crate::emission::{Emission, is_last};
use crate::flags::SignalFlags;
use crate::stage::Stage;
use crate::step::Step;
use crate::turn::Turn;
use bitflags::Flags;
use g_values::Value;
use std::marker::Model;
use ui_machine::{ObjectId, SignalId};

/// The stage of an emission, and the value accumulated so far. It has no list of its turns, and takes no memory.
///
/// It goes by the numbers of handlers: those above the one that had its turn last are still to come, up to the last one that was connected
/// before the emission began.
#[derive(Debug, Drop)]
pub struct Cursor {
    emission: Emission,
    greatest: u64,
    stage: Stage,
    value: Option<Value>,
}

impl Model for Cursor {
    ghost use Rattle.signal_core.specs.Emission.{Walk, walk_of};

    ghost Value = { Walk };

    ghost view = { λ c. walk_of c.emission c.greatest c.stage c.value };
}

impl Cursor {
    ghost use Rattle.signal_core.specs.Emission.{begun, collected, first_step, from_cleanup, of_bindings, of_class, stage_after, stopped, with_value};

    /// Creates an emission at its beginning. `greatest` is the number of the handler that was connected last.
    pub(crate) fn new(emission: Emission, greatest: u64) -> Self
        ensures { result ≡ begun emission greatest }
    {
        Cursor {
            emission,
            greatest,
            stage: Stage::First,
            value: None,
        }
    }

    pub(crate) fn stage(&self) -> Stage
        ensures { result ≡ self.now.stage }
    {
        self.stage
    }

    /// Returns whether a handler with this number was connected before the emission began and comes after the number `given`.
    pub(crate) fn is_ahead(&self, number: u64, given: u64) -> bool
        ensures { result ≡ (nat_lt given number && nat_le number self.now.greatest) }
    {
        given < number && number <= self.greatest
    }

    /// Returns whether this is an emission of the signal by the object.
    pub(crate) fn is_of(&self, object: ObjectId, signal: SignalId) -> bool
        ensures { result ≡ (nat_eq object.0 self.now.object && nat_eq signal self.now.signal) }
    {
        self.emission.object == object && self.emission.signal == signal
    }

    pub(crate) fn detail(&self) -> Option<&str>
        ensures { option_map (λ d. d.now) result ≡ self.now.detail }
    {
        match &self.emission.detail {
            Some(detail) => Some(detail.as_str()),
            None => None,
        }
    }

    /// Returns whether a handler with this detail runs in the emission.
    pub(crate) fn has_detail_for(&self, detail: &Option<String>) -> bool
        ensures { result ≡ fits_detail (option_map (λ d. string_bytes d) detail.now) self.now.detail }
    {
        let Some(detail) = detail else {
            return true;
        };
        match &self.emission.detail {
            None => false,
            Some(own) => detail.as_str() == own.as_str(),
        }
    }

    /// Returns the step of the class handler, if there is one and the signal has these flags.
    pub(crate) fn class_step(&self, flags: SignalFlags, then_at: Stage) -> Option<Step>
        ensures { result
            ≡ first_step (of_class (has_flags flags.0 self.now.flags) self.now.class_program then_at) }
    {
        let program = self.emission.class_program?;
        if self.emission.flags.contains(flags) {
            Some(Step {
                turn: Turn::Class(program),
                then_at,
            })
        } else {
            None
        }
    }

    /// Returns the step of the bindings, if the emission is a notification.
    pub(crate) fn transfers_step(&self) -> Option<Step>
        ensures { result ≡ first_step (of_bindings self.now) }
    {
        if self.emission.signal == 0 {
            Some(Step {
                turn: Turn::Transfers,
                then_at: Stage::Before(0),
            })
        } else {
            None
        }
    }

    /// Returns the step of the cleanup stage.
    pub(crate) fn from_cleanup(&self) -> Option<Step>
        ensures { result ≡ first_step (from_cleanup self.now) }
    {
        self.class_step(SignalFlags::RUN_CLEANUP, Stage::Over)
    }

    /// Moves on by a step. Without a step the emission is over.
    pub(crate) fn go_on(&mut self, step: Option<Step>)
        ensures { self.new ≡ record self.old { stage = stage_after step } }
    {
        self.stage = match step {
            Some(step) => step.then_at,
            None => Stage::Over,
        };
    }

    /// Stops the emission, of which only the cleanup stage remains then. Has no effect in the cleanup stage (GObject manual, Signals:
    /// `g_signal_stop_emission`).
    pub fn stop(&mut self)
        ensures { self.new ≡ stopped self.old }
    {
        if self.stage != Stage::Over {
            self.stage = Stage::Cleanup;
        }
    }

    /// Takes the value that the program of the last turn returned. The accumulator may stop the emission because of it. In the cleanup
    /// stage the value is dropped.
    pub fn accumulate(&mut self, value: Value)
        ensures { self.new ≡ with_value (value_view value) self.old }
    {
        let is_last = is_last(self.emission.accumulator, &value);
        self.collect(value, is_last);
    }

    /// Like `accumulate`, but the caller says whether the value is the last one, which stops the emission.
    pub fn collect(&mut self, value: Value, is_last: bool)
        ensures { self.new ≡ collected (value_view value) is_last self.old }
    {
        if self.stage == Stage::Over {
            return;
        }
        self.value = Some(value);
        if is_last {
            self.stop();
        }
    }

    /// Returns the object that emits.
    pub fn object(&self) -> ObjectId
        ensures { result.0 ≡ self.now.object }
    {
        self.emission.object
    }

    /// Returns the number of the signal in the list of the object's class. 0 is `notify`.
    pub fn signal(&self) -> SignalId
        ensures { result ≡ self.now.signal }
    {
        self.emission.signal
    }

    /// Returns the value that the emission has accumulated so far.
    pub fn accumulated(&self) -> Option<&Value>
        ensures { option_map (λ v. value_view v.now) result ≡ self.now.value }
    {
        self.value.as_ref()
    }

    /// Returns the value that the emission has accumulated.
    pub fn value(self) -> Option<Value>
        ensures { option_map (λ v. value_view v) result ≡ self.value }
    {
        let Cursor { value, .. } = self;
        value
    }
}
