//! A binding that has not ended.

ghost use Rattle.std.specs.Prelude.{◌≡◌, false, nat_eq, option_map, string_bytes};
ghost use Rattle.ui_machine.specs.State.Bindings.{listens, is_bidirectional, is_source, is_called, is_end};

use crate::binding::{Binding, Transfer};
use crate::due::DueTransfer;
use crate::flags::BindingFlags;
use bitflags::Flags;
use std::marker::Model;
use ui_machine::{ObjectId, Slot};

/// A binding that was made and has not ended.
#[derive(Debug, Drop)]
pub(crate) struct Bound {
    number: u64,
    binding: Binding,
    setting: bool,
    /// The number under which its name is listed. A contract does not see it.
    name_number: Option<u64>,
}

impl Model for Bound {
    ghost use Rattle.ui_machine.specs.State.Bindings as config;

    ghost Value = { config.Binding };

    ghost use Rattle.bindings.specs.Made.{binding_of};

    ghost view = { λ b. binding_of b.number b.setting b.binding };
}

impl Bound {
    ghost use Rattle.bindings.specs.Made.{binding_of, is_next, transfer_by, transfer_of};
    ghost use Rattle.bindings.specs.Due.{due_of};

    /// Creates a binding that is not setting its target.
    pub(crate) fn new(number: u64, binding: Binding) -> Self
        ensures { result ≡ binding_of number false binding }
    {
        Bound {
            number,
            binding,
            setting: false,
            name_number: None,
        }
    }

    /// Returns the number under which the name is listed, if the binding has a name and is listed.
    pub(crate) fn name_number(&self) -> Option<u64> {
        self.name_number
    }

    /// Stores the number under which the name is listed.
    pub(crate) fn list_name(&mut self, number: u64)
        ensures { self.new ≡ self.old }
    {
        self.name_number = Some(number);
    }

    pub(crate) fn number(&self) -> u64
        ensures { result ≡ self.now.number }
    {
        self.number
    }

    pub(crate) fn has_number(&self, number: u64) -> bool
        ensures { result ≡ nat_eq self.now.number number }
    {
        self.number == number
    }

    pub(crate) fn name(&self) -> &Option<String>
        ensures { option_map (λ name. string_bytes name) result.now ≡ self.now.name }
    {
        &self.binding.name
    }

    /// Returns the object and the slot of the source.
    pub(crate) fn source(&self) -> (u64, u64)
        ensures { result ≡ (self.now.source, self.now.source_slot) }
    {
        (self.binding.source.0, u64::from(self.binding.source_slot))
    }

    /// Returns the object and the slot of the target.
    pub(crate) fn target(&self) -> (u64, u64)
        ensures { result ≡ (self.now.target, self.now.target_slot) }
    {
        (self.binding.target.0, u64::from(self.binding.target_slot))
    }

    /// Returns whether the binding goes both ways.
    pub(crate) fn is_bidirectional(&self) -> bool
        ensures { result ≡ is_bidirectional self.now }
    {
        self.binding.flags.contains(BindingFlags::BIDIRECTIONAL)
    }

    pub(crate) fn is_setting(&self) -> bool
        ensures { result ≡ self.now.busy }
    {
        self.setting
    }

    pub(crate) fn mark(&mut self, setting: bool)
        ensures { self.new ≡ record self.old { busy = setting } }
    {
        self.setting = setting;
    }

    fn is_source(&self, object: ObjectId, slot: Slot) -> bool
        ensures { result ≡ is_source object.0 slot self.now }
    {
        self.binding.source == object && self.binding.source_slot == slot
    }

    /// Returns whether the binding reacts to a notification of the property, which is its source or, if it is bidirectional, its target.
    pub(crate) fn listens(&self, object: ObjectId, slot: Slot) -> bool
        ensures { result ≡ listens object.0 slot self.now }
    {
        let is_target = self.binding.target == object && self.binding.target_slot == slot;
        self.is_source(object, slot) || self.is_bidirectional() && is_target
    }

    /// Returns whether the binding is numbered `from` or above, listens at the property, and is not setting.
    pub(crate) fn is_next(&self, object: ObjectId, slot: Slot, from: u64) -> bool
        ensures { result ≡ is_next object.0 slot from self.now }
    {
        self.number >= from && self.listens(object, slot) && !self.setting
    }

    pub(crate) fn is_called(&self, name: &str) -> bool
        ensures { result ≡ is_called name.now self.now }
    {
        match &self.binding.name {
            None => false,
            Some(own) => own.as_str() == name,
        }
    }

    pub(crate) fn is_end(&self, object: ObjectId) -> bool
        ensures { result ≡ is_end object.0 self.now }
    {
        self.binding.source == object || self.binding.target == object
    }

    /// Returns the transfer that the binding makes when the property, one of its ends, was notified.
    pub(crate) fn transfer(&self, object: ObjectId, slot: Slot) -> Transfer
        ensures { result ≡ transfer_of object.0 slot self.now }
    {
        self.transfer_by(!self.is_source(object, slot))
    }

    /// Returns the transfer from the source to the target, or back.
    pub(crate) fn transfer_by(&self, back: bool) -> Transfer
        ensures { result ≡ transfer_by back self.now }
    {
        let binding = &self.binding;
        let invert = binding.flags.contains(BindingFlags::INVERT_BOOLEAN);
        if back {
            return Transfer {
                number: self.number,
                source: binding.target,
                source_slot: binding.target_slot,
                target: binding.source,
                target_slot: binding.source_slot,
                invert,
            };
        }
        Transfer {
            number: self.number,
            source: binding.source,
            source_slot: binding.source_slot,
            target: binding.target,
            target_slot: binding.target_slot,
            invert,
        }
    }

    /// Returns the binding's number and direction for a notification of the property, which is one of its ends.
    pub(crate) fn due(&self, object: ObjectId, slot: Slot) -> DueTransfer
        ensures { result ≡ due_of object.0 slot self.now }
    {
        DueTransfer {
            number: self.number,
            back: !self.is_source(object, slot),
        }
    }
}
