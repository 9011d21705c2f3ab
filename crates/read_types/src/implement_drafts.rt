//! The interfaces of a class while they are read. The names of the signals of the parent, and of those that the interfaces bring, are also
//! kept in a set, so that a further name is found without a search of all these types.

ghost use Rattle.std.specs.Prelude.{◌≡◌, [], IfOk, OnOk};
ghost use Rattle.std.specs.List.{list_any};
ghost use Rattle.ui_machine.specs.Definition.Names.{canonical, same_name};
ghost use Rattle.signal_core.specs.Sources.{signals_of};
ghost use Rattle.read_types.specs.ImplementDrafts.{has_name, parts_of, parts_seen, with_interface};

use crate::signal_names::add_names;
use signal_core::SignalTable;
use std::alloc::{AllocError, Global};
use std::collections::BTreeSet;
use type_tree::{TypeId, TypeTree, has_canonical_bytes, is_spelling};

/// The interfaces of a class, and the names of all signals that its parent has or that they bring.
#[derive(Drop)]
pub(crate) struct ImplementDraft<'a> {
    pub(crate) types: Vec<TypeId>,
    pub(crate) names: BTreeSet<&'a str>,
}

impl<'a> ImplementDraft<'a> {
    /// Creates a draft without interfaces, of a class with this parent.
    ///
    /// # Errors
    ///
    /// `AllocError` if memory is refused.
    pub(crate) fn new(
        alloc: Global,
        types: &TypeTree,
        signals: &'a SignalTable,
        parent: TypeId,
    ) -> Result<Self, AllocError>
        ensures { IfOk result (λ draft. parts_seen draft ≡ parts_of (signals_of types.now signals.now.signals) parent []) }
    {
        let mut names = BTreeSet::new(alloc);
        add_names(alloc, &mut names, types, signals, parent)?;
        Ok(ImplementDraft {
            types: Vec::new(alloc),
            names,
        })
    }

    // Returns whether one of the signals is called `name`, by a search through all names.
    fn has_spelled(&self, name: &str) -> bool
        ensures { result ≡ list_any (λ k. same_name k.now (canonical name.now)) self.now.names.keys }
    {
        self.names.iter().any(|own| is_spelling(*own, name))
    }

    /// Returns whether one of the signals is called `name`, in any spelling. A name in the canonical spelling needs no search.
    pub(crate) fn has(&self, name: &str) -> bool
        ensures { result ≡ has_name self.now.names (canonical name.now) }
    {
        if has_canonical_bytes(name) {
            self.names.contains(name)
        } else {
            self.has_spelled(name)
        }
    }

    /// Adds an interface.
    ///
    /// # Errors
    ///
    /// `AllocError` if memory is refused. The draft may then have an interface without its names, and is of no further use.
    pub(crate) fn add(
        &mut self,
        types: &TypeTree,
        signals: &'a SignalTable,
        interface: TypeId,
    ) -> Result<(), AllocError>
        ensures { OnOk result (parts_seen self.new ≡ with_interface (signals_of types.now signals.now.signals) interface (parts_seen self.old)) }
    {
        self.types.push(interface)?;
        let alloc = *self.types.allocator();
        add_names(alloc, &mut self.names, types, signals, interface)?;
        Ok(())
    }
}
