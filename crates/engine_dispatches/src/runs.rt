//! Runs: steps until nothing is left to do.

ghost use Rattle.std.specs.Prelude.{◌≡◌, ◌≤◌, ◌+◌, IfOk, OnOk, vec_capacity};
ghost use Rattle.ui_machine.specs.Prefix.{IsPrefix};
ghost use Rattle.ui_machine.specs.Steps.{most_steps};
ghost use Rattle.native_peers.specs.Seen.{SameRelations};
ghost use Rattle.engine_world.specs.Counting.{Counts, nothing};
ghost use Rattle.engine_world.specs.Room.{SameRoom};
ghost use Rattle.engine_world.specs.View.{world_of};
ghost use Rattle.engine_dispatches.specs.CallPoints.{point_of};
ghost use Rattle.engine_dispatches.specs.Courses.{RanFor, steps_left};
ghost use Rattle.engine_dispatches.specs.Safety.{ComesOfSafe};
ghost use Rattle.engine_dispatches.specs.Stepped.{Advanced, Ran, Stepped};

use crate::boxes::close_due;
use crate::calls::{answer_call, take_call};
use crate::quiet_steps::step_quietly;
use definitions::Definition;
use engine_world::engine::{Engine, StepKind};
use native_peers::Peers;
use std::alloc::AllocError;

// Makes a step, if there is one to make. A call of an open peer asks the peer, and the box of a peer that a step has closed is closed as
// well.
fn step<P: Peers>(
    engine: &mut Engine,
    definition: &Definition,
    pool: &mut P,
) -> Result<StepKind, AllocError>
    requires safe { ComesOfSafe definition.now (vec_capacity engine.now.stack.tasks) (point_of definition.now (P.seen pool.now) engine.now) }
    requires counted { Counts definition.now nothing engine.now }
    ensures counted { OnOk result (Counts definition.now nothing engine.new) }
    ensures stepped { Stepped result definition.now (P.relations pool.old)
        (point_of definition.now (P.seen pool.old) engine.old) (point_of definition.now (P.seen pool.new) engine.new) }
    ensures same { SameRelations (P.relations pool.old) (P.relations pool.new) }
    ensures grows { IsPrefix (world_of engine.old.world).transcript (world_of engine.new.world).transcript }
    ensures room { SameRoom engine.old engine.new }
{
    if let Some(call) = take_call(engine, definition) {
        let Ok(()) = answer_call(engine, definition, pool, call) else {
            return Err(AllocError);
        };
        return Ok(StepKind::Uncounted);
    }
    let made = step_quietly(engine, definition)?;
    close_due(engine, pool);
    Ok(made)
}

// Makes steps until a counted one is made or none is left, and returns whether a counted one was made.
fn advance<P: Peers>(
    engine: &mut Engine,
    definition: &Definition,
    pool: &mut P,
) -> Result<bool, AllocError>
    requires safe { ComesOfSafe definition.now (vec_capacity engine.now.stack.tasks) (point_of definition.now (P.seen pool.now) engine.now) }
    requires counted { Counts definition.now nothing engine.now }
    ensures counted { OnOk result (Counts definition.now nothing engine.new) }
    ensures advanced { Advanced result definition.now (P.relations pool.old)
        (point_of definition.now (P.seen pool.old) engine.old) (point_of definition.now (P.seen pool.new) engine.new) }
    ensures few { OnOk result (engine.old.counted ≤ most_steps → engine.new.counted ≤ most_steps) }
    ensures same { SameRelations (P.relations pool.old) (P.relations pool.new) }
    ensures grows { IsPrefix (world_of engine.old.world).transcript (world_of engine.new.world).transcript }
    ensures room { SameRoom engine.old engine.new }
{
    loop {
        match step(engine, definition, pool)? {
            StepKind::Nothing => return Ok(false),
            StepKind::Uncounted => {}
            StepKind::Counted => return Ok(true),
        }
    }
}

/// Makes steps until none is left. No run of the machine from there may be stuck.
///
/// # Errors
///
/// `AllocError` if memory is refused.
pub(crate) fn run<P: Peers>(
    engine: &mut Engine,
    definition: &Definition,
    pool: &mut P,
) -> Result<(), AllocError>
    requires safe { ComesOfSafe definition.now (vec_capacity engine.now.stack.tasks) (point_of definition.now (P.seen pool.now) engine.now) }
    requires counted { Counts definition.now nothing engine.now }
    ensures counted { OnOk result (Counts definition.now nothing engine.new) }
    ensures ran { Ran result definition.now (P.relations pool.old)
        (point_of definition.now (P.seen pool.old) engine.old) (point_of definition.now (P.seen pool.new) engine.new) }
    ensures few { OnOk result (engine.old.counted ≤ most_steps → engine.new.counted ≤ most_steps) }
    ensures same { SameRelations (P.relations pool.old) (P.relations pool.new) }
    ensures grows { IsPrefix (world_of engine.old.world).transcript (world_of engine.new.world).transcript }
    ensures room { SameRoom engine.old engine.new }
{
    loop {
        if !advance(engine, definition, pool)? {
            return Ok(());
        }
    }
}

/// Makes at most `most` counted steps. If none is left to make before that, returns how many more it would have made, and otherwise None.
/// No run of the machine from there may be stuck.
///
/// # Errors
///
/// `AllocError` if memory is refused.
pub(crate) fn run_for<P: Peers>(
    engine: &mut Engine,
    definition: &Definition,
    pool: &mut P,
    most: u64,
) -> Result<Option<u64>, AllocError>
    requires safe { ComesOfSafe definition.now (vec_capacity engine.now.stack.tasks) (point_of definition.now (P.seen pool.now) engine.now) }
    requires counted { Counts definition.now nothing engine.now }
    ensures counted { OnOk result (Counts definition.now nothing engine.new) }
    ensures ran { RanFor result definition.now (P.relations pool.old)
        (point_of definition.now (P.seen pool.old) engine.old) (point_of definition.now (P.seen pool.new) engine.new) }
    ensures made { IfOk result (λ left. engine.new.counted + steps_left left ≡ engine.old.counted + most) }
    ensures few { OnOk result (engine.old.counted ≤ most_steps → engine.new.counted ≤ most_steps) }
    ensures same { SameRelations (P.relations pool.old) (P.relations pool.new) }
    ensures grows { IsPrefix (world_of engine.old.world).transcript (world_of engine.new.world).transcript }
    ensures room { SameRoom engine.old engine.new }
{
    let mut left = most;
    'steps: while left > 0 {
        if !advance(engine, definition, pool)? {
            return Ok(Some(left));
        }
        left -= 1;
    }
    Ok(None)
}
