//! Clearing of the weak values that name an object.

ghost use Rattle.std.specs.Prelude.{◌≡◌, ◌≢◌, ℕ, false};
ghost use Rattle.std.specs.Option.{option_map};
ghost use Rattle.instance_tables.specs.View.{instances_at, InRange};
ghost use Rattle.instance_tables.specs.Names.{forgotten_in, NamersKnow};

use crate::instances::Instances;
use crate::namers::Namers;
use crate::weak::WeakSlots;
use ui_machine::ObjectId;

/// Sets each weak value that names the object to null. Looks only at the objects that may name it, or at all objects if that index was
/// given up. The identities go up to `last`.
pub(crate) fn forget_everywhere(
    instances: &mut Instances,
    namers: &mut Namers,
    weak: &WeakSlots,
    id: ObjectId,
    last: u64,
)
    requires given { InRange (instances_at instances.old) last }
    requires known { NamersKnow namers.old (instances_at instances.old) }
    ensures forgotten { (q : ℕ) → instances_at instances.new q ≡ option_map (forgotten_in weak.now id.0) (instances_at instances.old q) }
    ensures known { NamersKnow namers.new (instances_at instances.new) }
{
    if namers.is_given_up() {
        instances.forget(weak, id);
        return;
    }
    forget_at_namers(instances, namers, weak, id, last);
}

// Clears the weak values of the objects that may name the object, in rising order of their identities.
fn forget_at_namers(
    instances: &mut Instances,
    namers: &mut Namers,
    weak: &WeakSlots,
    id: ObjectId,
    last: u64,
)
    requires kept { namers.old.is_given_up ≡ false }
    requires given { InRange (instances_at instances.old) last }
    requires known { NamersKnow namers.old (instances_at instances.old) }
    ensures forgotten { (q : ℕ) → instances_at instances.new q ≡ option_map (forgotten_in weak.now id.0) (instances_at instances.old q) }
    ensures known { NamersKnow namers.new (instances_at instances.new) }
{
    let mut at = 0;
    'holders: while let Some(holder) = namers.next(id, at) {
        forget_at(instances, namers, weak, id, holder);
        at = holder;
    }
}

// Sets the weak values of one object that name the other to null, if the object lives. If none of its values names the other any more,
// removes the pair from the index.
fn forget_at(
    instances: &mut Instances,
    namers: &mut Namers,
    weak: &WeakSlots,
    id: ObjectId,
    holder: u64,
)
    ensures changed { instances_at instances.new holder ≡ option_map (forgotten_in weak.now id.0) (instances_at instances.old holder) }
    ensures others { (q : ℕ) → q ≢ holder → instances_at instances.new q ≡ instances_at instances.old q }
    ensures known { NamersKnow namers.old (instances_at instances.old) → NamersKnow namers.new (instances_at instances.new) }
    ensures kept { namers.new.is_given_up ≡ namers.old.is_given_up }
{
    let Some(instance) = instances.get_mut(ObjectId(holder)) else {
        namers.remove(id, ObjectId(holder));
        return;
    };
    instance.object.forget(weak, id);
    namers.remove_unnamed(&instance.object, id, ObjectId(holder));
}
