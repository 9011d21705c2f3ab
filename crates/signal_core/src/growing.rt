//! Lists by type, as they grow.

ghost use Rattle.std.specs.Prelude.{◌+◌, ◌<◌, ◌≤◌, OnErr, OnOk, vec_len, max};
ghost use Rattle.signal_core.specs.Growing.{AddsItem, SameItems};

use std::alloc::{AllocError, Global};

/// Adds an item to the list at `at`, after adding empty lists up to it. A list that is missing reads as empty, so no other list changes. An
/// error changes none.
pub(crate) fn add<T: Drop>(
    alloc: Global,
    lists: &mut Vec<Vec<T>>,
    at: usize,
    item: T,
) -> Result<(), AllocError>
    requires { at < 65536 }
    ensures ok { OnOk result (AddsItem (λ v. v.items) lists.old.items lists.new.items at item) }
    ensures err { OnErr result (SameItems (λ v. v.items) lists.old.items lists.new.items) }
    ensures few { vec_len lists.new ≤ max (vec_len lists.old) (at + 1) }
{
    grow(alloc, lists, at + 1)?;
    lists[at].push(item)?;
    Ok(())
}

// Adds empty lists until there are at least `len`.
fn grow<T: Drop>(alloc: Global, lists: &mut Vec<Vec<T>>, len: usize) -> Result<(), AllocError>
    requires { len ≤ 65536 }
    ensures same { SameItems (λ v. v.items) lists.old.items lists.new.items }
    ensures few { vec_len lists.new ≤ max (vec_len lists.old) len }
    ensures ok { OnOk result (len ≤ vec_len lists.new) }
{
    'growing: while lists.len() < len {
        lists.push(Vec::new(alloc))?;
    }
    Ok(())
}
