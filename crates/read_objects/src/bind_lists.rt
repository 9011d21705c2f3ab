//! The bindings that are read so far.

ghost use Rattle.std.specs.Prelude.{◌≡◌, ◌∷◌, ◌++◌, ◌||◌, [], ℕ, List, map, OnErr, OnOk};
ghost use Rattle.std.specs.BTreeSet.{contains_text};
ghost use Rattle.definition_format.specs.Meaning.{bind_view};
ghost use Rattle.definition_format.specs.Denoted.Binds.{has_bound};
ghost use Rattle.definition_format.specs.Denoted.Entries.{is_called};

use definition_format::Bind;
use std::alloc::{AllocError, Global};
use std::collections::BTreeSet;
use std::marker::Model;

// The bindings in document order, with their names in a set.
#[derive(Drop)]
pub(crate) struct BindList {
    binds: Vec<Bind>,
    names: BTreeSet<String>,
}

impl Model for BindList {
    ghost use Rattle.std.specs.Prelude.{List, map};
    ghost use Rattle.ui_machine.specs.Definition.Places as machine;
    ghost use Rattle.definition_format.specs.Meaning.{bind_view};
    ghost use Rattle.read_objects.specs.BindNames.{AreNames};

    ghost Value = { List machine.Bind };

    ghost view = { λ l. map bind_view l.binds.items };

    ghost invariant = { λ l. AreNames l.names (map bind_view l.binds.items) };
}

impl BindList {
    pub(crate) fn new(alloc: Global) -> BindList
        ensures { result ≡ [] }
    {
        BindList {
            binds: Vec::new(alloc),
            names: BTreeSet::new(alloc),
        }
    }

    // Returns whether one of the bindings has this name.
    pub(crate) fn has(&self, name: &str) -> bool
        ensures { result ≡ has_bound self.now name.now }
    {
        self.names.contains(name)
    }

    // Appends a binding.
    pub(crate) fn push(&mut self, bind: Bind) -> Result<(), AllocError>
        ensures { OnOk result (self.new ≡ self.old ++ bind_view bind ∷ []) }
    {
        // Room for the binding is reserved first, so that its name is never there without it.
        self.binds.reserve(1)?;
        add_name(&mut self.names, &bind)?;
        self.binds.push(bind)?;
        Ok(())
    }

    // Returns the bindings in document order.
    pub(crate) fn into_binds(self) -> Vec<Bind>
        ensures { map bind_view result.items ≡ self }
    {
        self.binds
    }
}

// Adds the name of a binding, if it has one. The names are unchanged if memory is refused.
fn add_name(names: &mut BTreeSet<String>, bind: &Bind) -> Result<(), AllocError>
    ensures added { (name : List ℕ) → OnOk result (contains_text names.new name ≡ (is_called (bind_view bind.now).name name || contains_text names.old name)) }
    ensures err { OnErr result (names.new.keys ≡ names.old.keys) }
{
    if let Some(name) = &bind.name {
        let name = name.clone()?;
        names.insert(name)?;
    }
    Ok(())
}
