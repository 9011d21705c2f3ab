//! The types that a class is, collected once, since each of its interfaces may require many of them.

ghost use Rattle.std.specs.Prelude.{◌≡◌, ◌||◌, IfOk, OnOk, nat_eq, ℕ};
ghost use Rattle.std.specs.BTreeSet.{contains};
ghost use Rattle.std.specs.List.{list_any};
ghost use Rattle.std.specs.Ordering.{nat_cmp};
ghost use Rattle.ui_machine.specs.Rules.Ancestry.{implemented_by};
ghost use Rattle.type_tree.specs.Adding.{would_be};

use std::alloc::{AllocError, Global};
use std::collections::BTreeSet;
use type_tree::{TypeId, TypeSort, TypeTree};

/// The types that a class is, without itself.
pub(crate) type HeirTypes = BTreeSet<TypeId>;

/// Collects the types that a class with this parent is if it names these interfaces.
///
/// # Errors
///
/// `AllocError` if memory is refused.
pub(crate) fn heir_types(
    alloc: Global,
    types: &TypeTree,
    parent: TypeId,
    named: &[TypeId],
) -> Result<HeirTypes, AllocError>
    ensures { (t : ℕ) → IfOk result (λ all. contains nat_cmp all t ≡ would_be types.now parent named.now t) }
{
    let mut all = BTreeSet::new(alloc);
    add_types(&mut all, named)?;
    let mut class = parent;
    'line: loop {
        all.insert(class)?;
        add_types(&mut all, implemented(types, class))?;
        let Some(above) = types.parent(class) else {
            return Ok(all);
        };
        class = above;
    }
}

// Adds types to those before.
fn add_types(all: &mut HeirTypes, types: &[TypeId]) -> Result<(), AllocError>
    ensures { (t : ℕ) → OnOk result (contains nat_cmp all.new t ≡ (contains nat_cmp all.old t || list_any (nat_eq t) types.now)) }
{
    for t in types {
        all.insert(*t)?;
    }
    Ok(())
}

/// Returns the interfaces that a class names. There are none for types that are not classes.
pub(crate) fn implemented(types: &TypeTree, t: TypeId) -> &[TypeId]
    ensures { result.now ≡ implemented_by types.now t }
{
    if t.index() >= types.len() {
        return &[];
    }
    match types.sort(t) {
        TypeSort::Class => types.interfaces(t),
        TypeSort::Interface | TypeSort::Enum | TypeSort::Flags => &[],
    }
}
