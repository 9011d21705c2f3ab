//! Numbers of the names of bindings.

ghost use Rattle.std.specs.Prelude.{◌≡◌, ℕ, IfOk, List, Some, string_bytes};
ghost use Rattle.bindings.specs.Kept.{name_number};

use std::alloc::{AllocError, Global};
use std::collections::BTreeMap;

/// A map from names to numbers. A name keeps its number.
#[derive(Debug, Drop)]
pub(crate) struct Names {
    numbers: BTreeMap<String, u64>,
}

impl Names {
    /// Creates a map without names. Takes no memory.
    pub(crate) fn new(alloc: Global) -> Self {
        Names {
            numbers: BTreeMap::new(alloc),
        }
    }

    /// Returns the number of a name, if it has one.
    pub(crate) fn number(&self, name: &str) -> Option<u64>
        ensures { result ≡ name_number self.now name.now }
    {
        self.numbers.get(name).copied()
    }

    /// Returns the number of a name, and assigns one if it has none.
    pub(crate) fn add(&mut self, name: &String) -> Result<u64, AllocError>
        ensures number { IfOk result (λ number. name_number self.new (string_bytes name.now) ≡ Some number) }
        ensures stays { (n : List ℕ) (k : ℕ) → name_number self.old n ≡ Some k → name_number self.new n ≡ Some k }
    {
        if let Some(number) = self.number(name.as_str()) {
            return Ok(number);
        }
        let number = self.numbers.len() as u64;
        let name = name.clone()?;
        self.numbers.insert(name, number)?;
        Ok(number)
    }
}
