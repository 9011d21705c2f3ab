//! The types that declare a signal of a name, so that a name is found without a look at all signals that a type has.

ghost use Rattle.std.specs.Prelude.{◌≡◌, OnOk, nat_eq, true};
ghost use Rattle.std.specs.List.{list_any};
ghost use Rattle.signal_core.specs.Owners.{KeepsOwners, listed_for};

use std::alloc::{AllocError, Global};
use std::collections::BTreeMap;
use type_tree::TypeId;

/// For each canonical name, the types listed for it. Finding a name takes time logarithmic in the number of names.
///
/// A type that declares a signal of the name is listed. One that is listed need not declare it: memory may have run out for its signal.
#[derive(Drop)]
pub(crate) struct Owners {
    types: BTreeMap<String, Vec<TypeId>>,
}

impl Owners {
    /// Creates a map in which no type is listed. Takes no memory.
    pub(crate) fn new(alloc: Global) -> Self {
        Owners {
            types: BTreeMap::new(alloc),
        }
    }

    /// Returns the types that are listed for a name.
    pub(crate) fn listed(&self, name: &str) -> &[TypeId]
        ensures { result.now ≡ listed_for self.now name.now }
    {
        match self.types.get(name) {
            Some(types) => types.as_slice(),
            None => &[],
        }
    }

    /// Lists a type for a name.
    ///
    /// # Errors
    ///
    /// `AllocError` if memory is refused. All that was listed is so still.
    pub(crate) fn add(&mut self, alloc: Global, name: &str, t: TypeId) -> Result<(), AllocError>
        ensures stays { KeepsOwners self.old self.new }
        ensures listed { OnOk result (list_any (nat_eq t) (listed_for self.new name.now) ≡ true) }
    {
        if let Some(types) = self.types.get_mut(name) {
            types.push(t)?;
            return Ok(());
        }
        let mut types = Vec::new(alloc);
        types.push(t)?;
        let name = String::from_str(alloc, name)?;
        self.types.insert(name, types)?;
        Ok(())
    }
}
