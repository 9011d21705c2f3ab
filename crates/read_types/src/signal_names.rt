//! The names of the signals of a type, collected without a look at any type twice.

ghost use Rattle.std.specs.Prelude.{◌≡◌, ◌||◌, List, ℕ, OnOk, map};
ghost use Rattle.std.specs.List.{list_any};
ghost use Rattle.signal_core.specs.Sources.{brought_by, own_of, signals_of};
ghost use Rattle.signal_core.specs.SignalView.{signal_view};
ghost use Rattle.read_types.specs.ImplementDrafts.{has_name};
ghost use Rattle.signal_core.specs.Owners.{has_signal};
ghost use Rattle.read_types.specs.SignalNames.{AreIncluded};

use crate::ancestry::implemented;
use signal_core::{Signal, SignalTable};
use std::alloc::{AllocError, Global};
use std::collections::BTreeSet;
use type_tree::{TypeId, TypeTree};

// The name of the signal that each type has.
const NOTIFY: &str = "notify";

/// Adds the names of all signals of a type.
///
/// # Errors
///
/// `AllocError` if memory is refused. Some of the names may then be there.
pub(crate) fn add_names<'a>(
    alloc: Global,
    names: &mut BTreeSet<&'a str>,
    types: &TypeTree,
    signals: &'a SignalTable,
    t: TypeId,
) -> Result<(), AllocError>
    ensures { (name : List ℕ) → OnOk result (has_name names.new name ≡ (has_name names.old name || has_signal (signals_of types.now signals.now.signals t) name)) }
{
    names.insert(NOTIFY)?;
    let mut seen = BTreeSet::new(alloc);
    let mut class = t;
    'line: loop {
        add_brought(names, &mut seen, types, signals, class)?;
        let Some(parent) = types.parent(class) else {
            return Ok(());
        };
        class = parent;
    }
}

// Adds the names of the signals that are declared for a type and for the interfaces that it names. Those of the types seen are there.
fn add_brought<'a>(
    names: &mut BTreeSet<&'a str>,
    seen: &mut BTreeSet<TypeId>,
    types: &TypeTree,
    signals: &'a SignalTable,
    t: TypeId,
) -> Result<(), AllocError>
    requires seen { AreIncluded signals.now.signals seen.old names.old }
    ensures names { (name : List ℕ) → OnOk result (has_name names.new name ≡ (has_name names.old name || list_any (λ u. has_signal (own_of signals.now.signals u) name) (brought_by types.now t))) }
    ensures seen { OnOk result (AreIncluded signals.now.signals seen.new names.new) }
{
    add_own(names, seen, signals, t)?;
    for interface in implemented(types, t) {
        add_own(names, seen, signals, *interface)?;
    }
    Ok(())
}

// Adds the names of the signals that are declared for a type itself, unless it was seen. Those of the types seen are there.
fn add_own<'a>(
    names: &mut BTreeSet<&'a str>,
    seen: &mut BTreeSet<TypeId>,
    signals: &'a SignalTable,
    t: TypeId,
) -> Result<(), AllocError>
    requires seen { AreIncluded signals.now.signals seen.old names.old }
    ensures names { (name : List ℕ) → OnOk result (has_name names.new name ≡ (has_name names.old name || has_signal (own_of signals.now.signals t) name)) }
    ensures seen { OnOk result (AreIncluded signals.now.signals seen.new names.new) }
{
    if seen.insert(t)? {
        add_listed(names, signals.own(t))?;
    }
    Ok(())
}

// Adds the names of these signals.
fn add_listed<'a>(names: &mut BTreeSet<&'a str>, signals: &'a [Signal]) -> Result<(), AllocError>
    ensures { (name : List ℕ) → OnOk result (has_name names.new name ≡ (has_name names.old name || has_signal (map signal_view signals.now) name)) }
{
    for signal in signals {
        names.insert(signal.name.as_str())?;
    }
    Ok(())
}
