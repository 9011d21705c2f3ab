//! A list of what triggers may start, which has one entry for all triggers with the same key.

ghost use Rattle.std.specs.Prelude.{◌≡◌, ◌+◌, ◌≤◌, Some, length, slice_get, IfOk};
ghost use Rattle.verify_starts.specs.Tables.{GoesOn, IsTable, starts_in};
ghost use Rattle.verify_starts.specs.Triggers.{key_for, start_for, trigger_view};

use crate::keys::{Key, key_for};
use crate::starts::start_for;
use crate::triggers::Trigger;
use std::alloc::{AllocError, Global};
use std::collections::BTreeMap;
use verify_graph::ChannelNumbers;
use verify_operands::Lookups;
use verify_sketches::SketchedStart;

/// The starts so far, and the number of the start for each key so far.
#[derive(Drop)]
pub struct SketchedStarts {
    pub starts: Vec<SketchedStart>,
    pub numbers: BTreeMap<(u16, u16, u16), u32>,
}

impl SketchedStarts {
    /// Creates a list with just the start of what starts nothing, which has the number 0.
    ///
    /// # Errors
    ///
    /// `AllocError` if memory is refused.
    pub fn new(
        alloc: Global,
        lookups: &Lookups<'_>,
        numbers: &ChannelNumbers,
    ) -> Result<SketchedStarts, AllocError>
        ensures table { IfOk result (λ s. IsTable lookups.now numbers.now s) }
        ensures count { IfOk result (λ s. length s.starts.items ≡ 1) }
    {
        let mut starts = Vec::new(alloc);
        starts.push(SketchedStart::Nothing)?;
        Ok(SketchedStarts {
            starts,
            numbers: BTreeMap::new(alloc),
        })
    }

    // Adds a start and returns its number.
    fn add(
        &mut self,
        alloc: Global,
        lookups: &Lookups<'_>,
        numbers: &ChannelNumbers,
        trigger: &Trigger<'_>,
    ) -> Result<u32, AllocError>
        requires table { IsTable lookups.now numbers.now self.old }
        requires few { length self.old.starts.items ≤ 131072 }
        ensures goes_on { IfOk result (λ n. GoesOn lookups.now numbers.now self.old self.new) }
        ensures few { IfOk result (λ n. length self.new.starts.items ≤ length self.old.starts.items + 1) }
        ensures start { IfOk result (λ n. slice_get (starts_in self.new) n ≡ Some (start_for lookups.now numbers.now (trigger_view trigger.now))) }
        ensures numbers { IfOk result (λ n. self.new.numbers ≡ self.old.numbers) }
    {
        let start = start_for(alloc, lookups, numbers, trigger)?;
        let number = self.starts.len();
        self.starts.push(start)?;
        Ok(number as u32)
    }

    // Returns the number of the start of a trigger with this key, which is added if it is new.
    fn number_of(
        &mut self,
        alloc: Global,
        lookups: &Lookups<'_>,
        numbers: &ChannelNumbers,
        trigger: &Trigger<'_>,
        key: Key,
    ) -> Result<u32, AllocError>
        requires table { IsTable lookups.now numbers.now self.old }
        requires few { length self.old.starts.items ≤ 131072 }
        requires key { key_for lookups.now (trigger_view trigger.now) ≡ Some key }
        ensures goes_on { IfOk result (λ n. GoesOn lookups.now numbers.now self.old self.new) }
        ensures few { IfOk result (λ n. length self.new.starts.items ≤ length self.old.starts.items + 1) }
        ensures start { IfOk result (λ n. slice_get (starts_in self.new) n ≡ Some (start_for lookups.now numbers.now (trigger_view trigger.now))) }
    {
        if let Some(number) = self.numbers.get(&key) {
            return Ok(*number);
        }
        let number = self.add(alloc, lookups, numbers, trigger)?;
        self.numbers.insert(key, number)?;
        Ok(number)
    }

    /// Returns the number of the start of a trigger, which is added if it is new or has no key.
    ///
    /// # Errors
    ///
    /// `AllocError` if memory is refused.
    pub fn number(
        &mut self,
        alloc: Global,
        lookups: &Lookups<'_>,
        numbers: &ChannelNumbers,
        trigger: &Trigger<'_>,
    ) -> Result<u32, AllocError>
        requires table { IsTable lookups.now numbers.now self.old }
        requires few { length self.old.starts.items ≤ 131072 }
        ensures goes_on { IfOk result (λ n. GoesOn lookups.now numbers.now self.old self.new) }
        ensures few { IfOk result (λ n. length self.new.starts.items ≤ length self.old.starts.items + 1) }
        ensures start { IfOk result (λ n. slice_get (starts_in self.new) n ≡ Some (start_for lookups.now numbers.now (trigger_view trigger.now))) }
    {
        if matches!(*trigger, Trigger::Idle) {
            return Ok(0);
        }
        match key_for(lookups, trigger) {
            Some(key) => self.number_of(alloc, lookups, numbers, trigger, key),
            None => self.add(alloc, lookups, numbers, trigger),
        }
    }
}
