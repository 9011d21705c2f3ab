//! Lists of identities.

ghost use Rattle.std.specs.Prelude.{◌≡◌, ◌+◌, length, nat_eq};
ghost use Rattle.std.specs.List.{list_any};
ghost use Rattle.ui_machine.specs.State.Config.{without};
ghost use Rattle.ui_machine.specs.declared.ids.ObjectId.{ObjectId};
ghost use Rattle.instance_tables.specs.Store.{ids_of};

use ui_machine::ObjectId;

/// Removes an identity, and returns how often it was in the list.
pub(crate) fn remove_id(ids: &mut Vec<ObjectId>, id: ObjectId) -> usize
    ensures rest { ids_of ids.new.items ≡ without id.0 (ids_of ids.old.items) }
    ensures count { result + length ids.new.items ≡ length ids.old.items }
{
    let before = ids.len();
    ids.retain(|one| one.0 != id.0);
    before - ids.len()
}

/// Returns whether an identity is in the list.
pub(crate) fn is_among(ids: &[ObjectId], id: ObjectId) -> bool
    ensures { result ≡ list_any (λ (i : ObjectId). nat_eq i.0 id.0) ids.now }
{
    ids.iter().any(|one| one.0 == id.0)
}
