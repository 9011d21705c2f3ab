//! Numbers of the details of signals.

ghost use Rattle.std.specs.Prelude.{◌≡◌, ℕ, IfOk, List, Option, Some, option_map, string_bytes};
ghost use Rattle.signal_core.specs.Kept.{detail_number};

use std::alloc::{AllocError, Global};
use std::collections::BTreeMap;

/// Returns the text of a detail, if there is one.
pub(crate) fn as_text(detail: &Option<String>) -> Option<&str>
    ensures { option_map (λ d. d.now) result ≡ option_map (λ d. string_bytes d) detail.now }
{
    match detail {
        Some(detail) => Some(detail.as_str()),
        None => None,
    }
}

/// A map from details to numbers, which rise from 1. A detail keeps its number (GLib manual: GQuark).
#[derive(Debug, Drop)]
pub(crate) struct Details {
    numbers: BTreeMap<String, u64>,
}

impl Details {
    /// Creates a map without details. Takes no memory.
    pub(crate) fn new(alloc: Global) -> Self {
        Details {
            numbers: BTreeMap::new(alloc),
        }
    }

    /// Returns the number of a detail, if it has one. The number is 0 if no detail is given.
    pub(crate) fn number(&self, detail: Option<&str>) -> Option<u64>
        ensures { result ≡ detail_number self.now (option_map (λ d. d.now) detail.entry) }
    {
        match detail {
            Some(detail) => self.numbers.get(detail).copied(),
            None => Some(0),
        }
    }

    /// Returns the number of a detail, and assigns one if it has none. The number is 0 if no detail is given.
    pub(crate) fn add(&mut self, detail: &Option<String>) -> Result<u64, AllocError>
        ensures number { IfOk result (λ number. detail_number self.new (option_map (λ d. string_bytes d) detail.now) ≡ Some number) }
        ensures stays { (d : Option (List ℕ)) (n : ℕ) → detail_number self.old d ≡ Some n → detail_number self.new d ≡ Some n }
    {
        if let Some(number) = self.number(as_text(detail)) {
            return Ok(number);
        }
        let Some(detail) = detail else {
            return Ok(0);
        };
        let number = self.numbers.len() as u64 + 1;
        let detail = detail.clone()?;
        self.numbers.insert(detail, number)?;
        Ok(number)
    }
}
