//! Specs of properties.

ghost use Rattle.std.specs.Prelude.{◌≡◌};
ghost use Rattle.ui_machine.specs.Definition.Properties.{is_readable, is_writable, is_construct_only, is_lax, is_explicit_notify};
ghost use Rattle.ui_machine.specs.Rules.Construction.{is_at_construction};
ghost use Rattle.param_specs.specs.View.{spec_view};

use crate::flags::PropertyFlags;
use bitflags::Flags;
use g_values::{Kind, Value};
use std::rc::RcStr;

/// The specification of a property: what it may hold and how it may be used.
#[derive(Debug, Drop)]
pub struct Spec {
    /// The name. A table stores it in the canonical spelling, with `-` for `_`. Notifications of the property share it.
    pub name: RcStr,
    pub kind: Kind,
    pub flags: PropertyFlags,
    pub default: Value,
    /// The minimum for an integer kind, 0 for other kinds.
    pub min: i128,
    /// The maximum for an integer kind, 0 for other kinds.
    pub max: i128,
    /// Whether the property holds its object weakly, so that it does not keep the object alive.
    pub weak: bool,
}

impl Spec {
    /// Returns whether the property may be read.
    pub fn is_readable(&self) -> bool
        ensures { result ≡ is_readable (spec_view self.now) }
    {
        self.flags.contains(PropertyFlags::READABLE)
    }

    /// Returns whether the property may be written.
    pub fn is_writable(&self) -> bool
        ensures { result ≡ is_writable (spec_view self.now) }
    {
        self.flags.contains(PropertyFlags::WRITABLE)
    }

    /// Returns whether the property can be set only during construction.
    pub fn is_construct_only(&self) -> bool
        ensures { result ≡ is_construct_only (spec_view self.now) }
    {
        self.flags.contains(PropertyFlags::CONSTRUCT_ONLY)
    }

    /// Returns whether the property is set during construction.
    pub fn is_at_construction(&self) -> bool
        ensures { result ≡ is_at_construction (spec_view self.now) }
    {
        self.flags.contains(PropertyFlags::CONSTRUCT) || self.is_construct_only()
    }

    /// Returns whether setting an invalid value stores what validation makes of it.
    pub fn is_lax(&self) -> bool
        ensures { result ≡ is_lax (spec_view self.now) }
    {
        self.flags.contains(PropertyFlags::LAX_VALIDATION)
    }

    /// Returns whether a set notifies only if the value changes.
    pub fn is_explicit_notify(&self) -> bool
        ensures { result ≡ is_explicit_notify (spec_view self.now) }
    {
        self.flags.contains(PropertyFlags::EXPLICIT_NOTIFY)
    }
}
