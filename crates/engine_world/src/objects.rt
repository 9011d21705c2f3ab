//! The making of objects, with their defaults and with the steps of their construction.

ghost use Rattle.std.specs.Prelude.{◌≡◌, ◌<◌, suc, length, ℕ, cond, [], ◌∷◌, ◌++◌, map, None, Some, OnOk, OnErr, IfOk, IfSome, IsSome, Bool};
ghost use Rattle.engine_world.specs.Able.{Able};
ghost use Rattle.ui_machine.specs.Definition.Properties as machine;
ghost use Rattle.ui_machine.specs.Definition.Lookups.{specs_of};
ghost use Rattle.instance_tables.specs.Store.{made_object};
ghost use Rattle.ui_machine.specs.State.References.{in_values};
ghost use Rattle.ui_machine.specs.Definition as definition;
ghost use Rattle.ui_machine.specs.Rules.Construction.{lent, with_object, making};
ghost use Rattle.ui_machine.specs.State.Config.{starts};
ghost use Rattle.ui_machine.specs.State.Objects.{living, most_identities};
ghost use Rattle.ui_machine.specs.State.Tasks.{Constructing};
ghost use Rattle.g_values.specs.View.{value_view};
ghost use Rattle.engine_world.specs.NewObjects.{Adds, before_lent, begun};
ghost use Rattle.engine_world.specs.Quiet.{IsQuiet};
ghost use Rattle.engine_world.specs.View.{world_of};
ghost use Rattle.engine_world.specs.Room.{HasRoom, SameRoom};
ghost use Rattle.engine_world.specs.TaskView.{agenda_of};
ghost use Rattle.engine_world.specs.Counting.{KeepsCounts, MayBeHeld};

use crate::construct_steps::{GivenAt, construction};
use crate::engine::Engine;
use crate::lines::Line;
use crate::object_peers::{count_got, numbers_at};
use crate::places::entry_at;
use crate::references::push_task;
use crate::seats::Seats;
use definitions::Definition;
use engine_stack::{ConstructSteps, ConstructionFrame, Task};
use g_values::Value;
use instance_tables::{Object, Table};
use std::alloc::{AllocError, Global};
use type_tree::TypeId;
use ui_machine::{ObjectId, Place, Slot};

// The number of the type `GInitiallyUnowned`, whose objects begin floating.
const INITIALLY_UNOWNED: u16 = 1;

/// A new object with the steps of its construction, and what the construction begins with: the object gets its peer, and its line is said.
#[derive(Drop)]
pub struct NewObject {
    pub object: ObjectId,
    pub steps: ConstructSteps,
    pub peer: Option<usize>,
    pub line: String,
}

// Makes an object with these values under the next identity. It floats if its class is a `GInitiallyUnowned`, and it is to get this peer.
fn create_object(
    engine: &mut Engine,
    definition: &Definition,
    class: TypeId,
    place: Place,
    values: Vec<Value>,
    peer: Option<usize>,
) -> Result<ObjectId, AllocError>
    requires identity { length (world_of engine.now.world).objects < most_identities }
    ensures world { OnOk result (world_of engine.new.world ≡ before_lent (world_of engine.old.world) (with_object definition.now (world_of engine.old.world) (made_object class place.0 (map value_view values.items) peer))) }
    ensures identity { IfOk result (λ id. id.0 ≡ suc (length (world_of engine.old.world).objects)) }
    ensures live { IfOk result (λ id. IsSome (living (world_of engine.new.world).objects id.0)) }
    ensures quiet { IsQuiet (world_of engine.old.world) (world_of engine.new.world) }
    ensures seats { engine.new.world.seats ≡ engine.old.world.seats }
    ensures counted { ((o : ℕ) → in_values o (specs_of definition.now class) (map value_view values.items) ≡ 0) → OnOk result (KeepsCounts definition.now engine.old engine.new) }
    ensures same { (engine.new.stack ≡ engine.old.stack) × (engine.new.counted ≡ engine.old.counted) }
    ensures handlers { engine.new.world.handlers ≡ engine.old.world.handlers }
{
    let floats = definition
        .types()
        .is_a(class, TypeId::new(INITIALLY_UNOWNED));
    let object = Object::new(engine.alloc, class, place, values, peer);
    let id = add(&mut engine.world.table, object, floats)?;
    Ok(id)
}

/// Makes the object of a place. It gets this peer, and its line is said, as its construction begins.
///
/// # Errors
///
/// `AllocError` if memory is refused.
#[tactic(auto, unfolding(ui_machine::specs::Rules::Construction::making))]
pub fn make(
    engine: &mut Engine,
    definition: &Definition,
    place: Place,
    peer: Option<usize>,
) -> Result<NewObject, AllocError>
    requires able { (held : Bool) → Able (making definition.now (world_of engine.now.world) place.0 peer held) }
    requires identity { length (world_of engine.now.world).objects < most_identities }
    ensures made { IfOk result (λ new. (held : Bool) → making definition.now (world_of engine.old.world) place.0 peer held
        ≡ starts (begun new (world_of engine.new.world)) (Constructing new.object.0 new.steps held ∷ [])) }
    ensures peer { IfOk result (λ new. new.peer ≡ peer) }
    ensures identity { IfOk result (λ new. new.object.0 ≡ suc (length (world_of engine.old.world).objects)) }
    ensures live { IfOk result (λ new. IsSome (living (world_of engine.new.world).objects new.object.0)) }
    ensures quiet { IsQuiet (world_of engine.old.world) (world_of engine.new.world) }
    ensures seats { engine.new.world.seats ≡ engine.old.world.seats }
    ensures counted { OnOk result (KeepsCounts definition.now engine.old engine.new) }
    ensures same { (engine.new.stack ≡ engine.old.stack) × (engine.new.counted ≡ engine.old.counted) }
    ensures handlers { engine.new.world.handlers ≡ engine.old.world.handlers }
{
    let types = definition.types();
    let Some(entry) = entry_at(definition, place) else {
        unreachable!()
    };
    let class = entry.class;
    let values = defaults(engine.alloc, definition, class)?;
    let steps = engine.spare_steps.take(engine.alloc);
    let given = GivenAt {
        world: &engine.world,
        place,
        entries: entry.given,
    };
    let steps = construction(steps, definition, class, given)?;
    count_got(
        &mut engine.world.got_peers,
        &engine.world.seats,
        place,
        numbers_at(&engine.world.peer_numbers, place),
    );
    let object = create_object(engine, definition, class, place, values, peer)?;
    let told = Line::Construct {
        object,
        class: definition.class_name(class),
    };
    let line = told.text(engine.alloc, types)?;
    Ok(NewObject {
        object,
        steps,
        peer,
        line,
    })
}

/// Begins the construction of a new object: it gets its peer, its line is said, and the steps of the construction go before the other
/// tasks. If `held`, the builder holds the object at the end.
///
/// # Errors
///
/// `AllocError` if memory is refused.
pub fn begin_construction(engine: &mut Engine, new: NewObject, held: bool) -> Result<(), AllocError>
    requires peer { IfSome new.peer (λ number. number < length engine.now.world.seats) }
    requires may { MayBeHeld engine.now new.object.0 }
    requires room { HasRoom 1 engine.now }
    ensures agenda { OnOk result ((d : definition.Definition) → agenda_of d engine.new ≡ Constructing new.object.0 new.steps held ∷ agenda_of d engine.old) }
    ensures world { OnOk result (world_of engine.new.world ≡ begun new (world_of engine.old.world)) }
    ensures quiet { OnErr result (IsQuiet (world_of engine.old.world) (world_of engine.new.world)) }
    ensures same { engine.new.counted ≡ engine.old.counted }
    ensures counted { OnOk result ((d : definition.Definition) → KeepsCounts d engine.old engine.new) }
    ensures room { SameRoom engine.old engine.new }
{
    let NewObject {
        object,
        steps,
        peer,
        line,
    } = new;
    push_task(
        engine,
        Task::Constructing(ConstructionFrame {
            object,
            steps,
            held,
        }),
    );
    engine.world.say(line)?;
    lend(&mut engine.world.seats, peer, object);
    Ok(())
}

// Gives a peer to a new object, if there is one for it.
fn lend(seats: &mut Seats, peer: Option<usize>, object: ObjectId)
    requires { IfSome peer (λ number. number < length seats.now) }
    ensures { seats.new ≡ lent peer object.0 seats.old }
{
    if let Some(number) = peer {
        seats.lend(number, object);
    }
}

// Adds an object to a table, floating or not. The table is unchanged after an error.
fn add(table: &mut Table, object: Object, floats: bool) -> Result<ObjectId, AllocError>
    requires identity { length table.now.objects < most_identities }
    requires childless { object.children ≡ [] }
    requires parentless { object.parent ≡ None }
    ensures added { IfOk result (λ id. Adds object floats id.0 table.old table.new) }
    ensures err { OnErr result (table.new ≡ table.old) }
{
    if floats {
        table.make_floating(object)
    } else {
        table.make(object)
    }
}

// Returns the defaults of the properties of a class, by slot.
fn defaults(alloc: Global, definition: &Definition, class: TypeId) -> Result<Vec<Value>, AllocError>
    ensures { IfOk result (λ values. map value_view values.items ≡ map (λ (s : machine.Spec). s.default) (specs_of definition.now class)) }
{
    let mut values = Vec::new(alloc);
    // For the proof: how many properties a class has at most.
    let _slots = definition.slots(class);
    let mut slot: Slot = 0;
    loop {
        let Some(spec) = definition.spec(class, slot) else {
            return Ok(values);
        };
        values.push(spec.default.copied()?)?;
        slot += 1;
    }
}
