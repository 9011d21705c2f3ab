//! Calls of the crate `instances`: objects of a heap.

ghost use Rattle.std.specs.Prelude.{◌≡◌, IfOk, IsSome};
ghost use Rattle.ui_machine.specs.State.Objects.{living};
ghost use Rattle.instance_tables.specs.Store.{freezes_in};
ghost use Rattle.instances.specs.Heaps.{classes_of, objects_of};

use crate::call_faults::CallFault;
use crate::heap_tables::HeapTables;
use crate::tally_calls::answer_of_tally;
use crate::words::{parts, small_number};
use g_values::Value;
use instances::{AdoptError, Classes, CreateError, Heap};
use native_peers::PeerPool;
use std::alloc::Global;
use type_tree::TypeId;
use ui_machine::{ObjectId, Place};

const SEAT: Place = Place(3);

// Creates an object without a peer.
fn create(heap: &mut Heap<'_>, class: TypeId) -> Result<ObjectId, CreateError>
    ensures live { IfOk result (λ id. IsSome (living (objects_of heap.new).objects id.0)) }
    ensures frozen { IfOk result (λ id. freezes_in (living (objects_of heap.new).objects id.0) ≡ 1) }
{
    heap.create(SEAT, class, None)
}

// Makes an object the child of another one, if both live and the child may be held once more.
fn adopt(
    heap: &mut Heap<'_>,
    parent: ObjectId,
    child: ObjectId,
) -> Result<Result<(), AdoptError>, CallFault> {
    if !heap.is_live(parent) || !heap.can_hold(child) {
        return Err(CallFault::Line);
    }
    Ok(heap.adopt(parent, child))
}

// Holds an object and lets it go again. Returns what nothing holds while the object is held, and what nothing holds afterwards.
fn held(
    heap: &mut Heap<'_>,
    id: ObjectId,
) -> Result<(Option<ObjectId>, Option<ObjectId>), CallFault> {
    if !heap.can_hold(id) {
        return Err(CallFault::Line);
    }
    heap.hold(id);
    let held = heap.next_unheld();
    heap.let_go(id);
    Ok((held, heap.next_unheld()))
}

// Answers `family`, on a heap where two objects may live. Both float at first.
fn answer_of_family(alloc: Global) -> Result<String, CallFault> {
    let tables = HeapTables::new(alloc)?;
    let class = tables.widget_class;
    let mut heap = Heap::new(alloc, tables.classes(), 2, PeerPool::new(alloc));
    let Ok(parent) = create(&mut heap, class) else {
        return Err(CallFault::OutOfMemory);
    };
    let Ok(child) = create(&mut heap, class) else {
        return Err(CallFault::OutOfMemory);
    };
    let third = create(&mut heap, class);
    let own = adopt(&mut heap, child, child)?;
    let first = adopt(&mut heap, parent, child)?;
    let again = adopt(&mut heap, parent, child)?;
    let floats = (heap.is_floating(parent), heap.is_floating(child));
    heap.sink(parent);
    let unheld = heap.next_unheld();
    let orphaned = (heap.orphan(child), heap.orphan(child));
    let holds = held(&mut heap, parent)?;
    Ok(format!(in alloc;
        "{third:?}, {own:?}, {first:?}, {again:?}, {floats:?}, {unheld:?}, {orphaned:?}, {holds:?}"
    )?)
}

// Returns what is known of a new object, and what its number was before another one was written.
fn answer_of_new(
    alloc: Global,
    heap: &mut Heap<'_>,
    classes: Classes<'_>,
    class: TypeId,
    size: i32,
) -> Result<String, CallFault>
    requires { classes_of heap.now ≡ classes }
{
    if classes.specs.slots_of(classes.types, class) == 0 {
        return Err(CallFault::Line);
    }
    let Ok(id) = heap.create(SEAT, class, None) else {
        return Err(CallFault::OutOfMemory);
    };
    let class = heap.type_of(id);
    let place = heap.place_of(id);
    let first = heap.read(id, 0).copied()?;
    let was = heap.write(id, 0, Value::Int(size));
    Ok(format!(in alloc; "{class:?} {place:?} {first:?} {was:?}")?)
}

// Answers `box`, with a new object that has a number.
fn answer_of_box(alloc: Global, size: u16) -> Result<String, CallFault> {
    let tables = HeapTables::new(alloc)?;
    let classes = tables.classes();
    let mut heap = Heap::new(alloc, classes, 1, PeerPool::new(alloc));
    answer_of_new(alloc, &mut heap, classes, tables.box_class, i32::from(size))
}

// Adds a notification of an object, and returns whether it is to be made at once.
fn add(heap: &mut Heap<'_>, id: ObjectId) -> Result<bool, CallFault> {
    if !heap.is_live(id) {
        return Err(CallFault::Line);
    }
    Ok(heap.add(id, 0)?)
}

// Answers `queues`, with a new object that is frozen once more, and one that is thawed.
fn answer_of_queues(alloc: Global) -> Result<String, CallFault> {
    let tables = HeapTables::new(alloc)?;
    let class = tables.box_class;
    let mut heap = Heap::new(alloc, tables.classes(), 2, PeerPool::new(alloc));
    let Ok(frozen) = create(&mut heap, class) else {
        return Err(CallFault::OutOfMemory);
    };
    heap.freeze(frozen);
    let Ok(thawed) = create(&mut heap, class) else {
        return Err(CallFault::OutOfMemory);
    };
    let slots = heap.thaw(thawed);
    let at_once = (add(&mut heap, frozen)?, add(&mut heap, thawed)?);
    Ok(format!(in alloc; "{slots:?} {at_once:?}")?)
}

// Freezes an object, if it lives and is not frozen.
fn freeze(heap: &mut Heap<'_>, id: ObjectId) -> Result<(), CallFault> {
    if !heap.is_live(id) || heap.is_frozen(id) {
        return Err(CallFault::Line);
    }
    heap.freeze(id);
    Ok(())
}

// Answers `frozen`: whether an object is frozen when it is new, once it is thawed, and once it is frozen again.
fn answer_of_frozen(alloc: Global) -> Result<String, CallFault> {
    let tables = HeapTables::new(alloc)?;
    let mut heap = Heap::new(alloc, tables.classes(), 1, PeerPool::new(alloc));
    let Ok(id) = create(&mut heap, tables.box_class) else {
        return Err(CallFault::OutOfMemory);
    };
    let new = heap.is_frozen(id);
    heap.thaw(id);
    let thawed = heap.is_frozen(id);
    freeze(&mut heap, id)?;
    let again = heap.is_frozen(id);
    Ok(format!(in alloc; "{new} {thawed} {again}")?)
}

/// Answers a call on a heap of its own: `tally NUMBER [disposed|finalised]`, `family`, `box SIZE`, `queues`, `frozen`.
///
/// # Errors
///
/// Returns `Line` if the words are not a call.
pub fn answer_of_heaps(alloc: Global, call: &str, words: &str) -> Result<String, CallFault> {
    match call {
        "tally" => {
            let (number, end) = parts(words)?;
            answer_of_tally(alloc, i64::from(small_number(number)?), end)
        }
        "family" => answer_of_family(alloc),
        "box" => answer_of_box(alloc, small_number(words)?),
        "queues" => answer_of_queues(alloc),
        "frozen" => answer_of_frozen(alloc),
        _ => Err(CallFault::Line),
    }
}
