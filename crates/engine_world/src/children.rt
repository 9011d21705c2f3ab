//! The adoption of a child by its parent, and the line that reports a limit.

ghost use Rattle.std.specs.Prelude.{◌≡◌, None, OnOk, OnErr};
ghost use Rattle.engine_world.specs.Able.{Able, Leads};
ghost use Rattle.ui_machine.specs.Output.Lines as lines;
ghost use Rattle.ui_machine.specs.Rules.Children.{with_family};
ghost use Rattle.ui_machine.specs.State.Config.{said};
ghost use Rattle.instance_tables.specs.Family.{refusal_in};
ghost use Rattle.engine_world.specs.Quiet.{IsQuiet};
ghost use Rattle.engine_world.specs.View.{world_of};
ghost use Rattle.engine_world.specs.KinView.{joined};
ghost use Rattle.engine_world.specs.Counting.{IsCounted, KeepsCounts};

use crate::engine::Engine;
use crate::lines::Line;
use crate::references::never_full;
use definitions::Definition;
use instance_tables::AdoptError;
use std::alloc::AllocError;
use ui_machine::ObjectId;

/// An object, and the parent that is to adopt it.
#[derive(Clone, Copy)]
pub struct Kin {
    pub parent: ObjectId,
    pub child: ObjectId,
}

/// Says the line that a limit was reached. The word names what is limited. The world is unchanged after an error.
///
/// # Errors
///
/// `AllocError` if memory is refused.
pub fn say_limit(engine: &mut Engine, definition: &Definition, word: &str) -> Result<(), AllocError>
    ensures ok { OnOk result (world_of engine.new.world ≡ said definition.now (world_of engine.old.world) (lines.limit word.now)) }
    ensures err { OnErr result (world_of engine.new.world ≡ world_of engine.old.world) }
    ensures same { (engine.new.stack ≡ engine.old.stack) × (engine.new.counted ≡ engine.old.counted) }
    ensures handlers { engine.new.world.handlers ≡ engine.old.world.handlers }
    ensures counted { OnOk result (KeepsCounts definition.now engine.old engine.new) }
{
    let line = Line::Limit { word }.text(engine.alloc, definition.types())?;
    engine.world.say(line)?;
    Ok(())
}

// Makes an object the child of another one, and says its line. The table must not refuse the pair.
fn adopt(engine: &mut Engine, definition: &Definition, kin: Kin) -> Result<(), AllocError>
    requires free { refusal_in engine.now.world.table kin.parent.0 kin.child.0 ≡ None }
    requires counted { IsCounted definition.now engine.now }
    ensures ok { OnOk result (world_of engine.new.world ≡ with_family definition.now (world_of engine.old.world) kin.parent.0 kin.child.0) }
    ensures err { OnErr result (IsQuiet (world_of engine.old.world) (world_of engine.new.world)) }
    ensures same { (engine.new.stack ≡ engine.old.stack) × (engine.new.counted ≡ engine.old.counted) }
    ensures handlers { engine.new.world.handlers ≡ engine.old.world.handlers }
    ensures counted { OnOk result (KeepsCounts definition.now engine.old engine.new) }
{
    let Kin { parent, child } = kin;
    // For the proof: the child may be held once more.
    never_full(engine);
    let line = Line::Adopt { parent, child }.text(engine.alloc, definition.types())?;
    match engine.world.table.adopt(parent, child) {
        Ok(()) => {}
        Err(AdoptError::OutOfMemory) => return Err(AllocError),
        Err(AdoptError::NotLiving) => unreachable!(),
        Err(AdoptError::HasParent) => unreachable!(),
        Err(AdoptError::ChildLimit) => unreachable!(),
    }
    engine.world.say(line)?;
    Ok(())
}

/// Makes an object the child of another one, or says the line `limit adopt` if the table refuses the pair.
///
/// # Errors
///
/// `AllocError` if memory is refused.
pub fn join(engine: &mut Engine, definition: &Definition, kin: Kin) -> Result<(), AllocError>
    requires able { Able (joined definition.now (world_of engine.now.world) kin.parent.0 kin.child.0) }
    requires counted { IsCounted definition.now engine.now }
    ensures joins { Leads result (joined definition.now (world_of engine.old.world) kin.parent.0 kin.child.0) (world_of engine.new.world) }
    ensures quiet { OnErr result (IsQuiet (world_of engine.old.world) (world_of engine.new.world)) }
    ensures same { (engine.new.stack ≡ engine.old.stack) × (engine.new.counted ≡ engine.old.counted) }
    ensures handlers { engine.new.world.handlers ≡ engine.old.world.handlers }
    ensures counted { OnOk result (KeepsCounts definition.now engine.old engine.new) }
{
    match engine.world.table.refusal(kin.parent, kin.child) {
        None => adopt(engine, definition, kin)?,
        Some(AdoptError::NotLiving) => unreachable!(),
        Some(AdoptError::OutOfMemory) => unreachable!(),
        Some(AdoptError::HasParent) => say_limit(engine, definition, "adopt")?,
        Some(AdoptError::ChildLimit) => say_limit(engine, definition, "adopt")?,
    }
    Ok(())
}

/// Makes an object the child of another one as [`join`] does, with the two as separate arguments.
///
/// # Errors
///
/// `AllocError` if memory is refused.
pub fn join_objects(
    engine: &mut Engine,
    definition: &Definition,
    parent: ObjectId,
    child: ObjectId,
) -> Result<(), AllocError>
    requires able { Able (joined definition.now (world_of engine.now.world) parent.0 child.0) }
    requires counted { IsCounted definition.now engine.now }
    ensures joins { Leads result (joined definition.now (world_of engine.old.world) parent.0 child.0) (world_of engine.new.world) }
    ensures quiet { OnErr result (IsQuiet (world_of engine.old.world) (world_of engine.new.world)) }
    ensures same { (engine.new.stack ≡ engine.old.stack) × (engine.new.counted ≡ engine.old.counted) }
    ensures handlers { engine.new.world.handlers ≡ engine.old.world.handlers }
    ensures counted { OnOk result (KeepsCounts definition.now engine.old engine.new) }
{
    join(engine, definition, Kin { parent, child })
}
