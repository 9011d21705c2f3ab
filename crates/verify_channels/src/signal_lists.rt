//! Lists by the numbers of signals.

ghost use Rattle.std.specs.Prelude.{◌≡◌, ◌++◌, ◌∷◌, [], ℕ, cond, nat_eq, OnOk};
ghost use Rattle.verify_channels.specs.SignalLists.{list_of};

use std::alloc::{AllocError, Global};
use std::collections::BTreeMap;
use ui_machine::SignalId;

/// For each signal of a class, by its number, a list of what is for it.
#[derive(Drop)]
pub struct SignalLists<T> {
    alloc: Global,
    lists: BTreeMap<u16, Vec<T>>,
}

impl<T: Drop> SignalLists<T> {
    /// Creates lists that are all empty. Takes no memory.
    pub(crate) fn new(alloc: Global) -> Self
        ensures { (n : ℕ) → list_of result n ≡ [] }
    {
        SignalLists {
            alloc,
            lists: BTreeMap::new(alloc),
        }
    }

    /// Appends an item to the list of a signal.
    ///
    /// # Errors
    ///
    /// `AllocError` if memory is refused.
    pub(crate) fn push(&mut self, number: SignalId, item: T) -> Result<(), AllocError>
        ensures { OnOk result ((n : ℕ) → list_of self.new n ≡ cond (nat_eq number n) (list_of self.old n ++ item ∷ []) (list_of self.old n)) }
    {
        if let Some(list) = self.lists.get_mut(&number) {
            list.push(item)?;
            return Ok(());
        }
        let mut list = Vec::new(self.alloc);
        list.push(item)?;
        self.lists.insert(number, list)?;
        Ok(())
    }

    /// Returns the list of a signal.
    pub(crate) fn list(&self, number: SignalId) -> &[T]
        ensures { result.now ≡ list_of self.now number }
    {
        match self.lists.get(&number) {
            Some(list) => list.as_slice(),
            None => &[],
        }
    }
}
