//! Due calls of open peers: each asks its peer, and the program is given the answer.

ghost use Rattle.std.specs.Prelude.{◌≡◌, MatchOption, None, true, is_some, OnErr, OnOk, vec_capacity};
ghost use Rattle.ui_machine.specs.State.Config.{is_asked};
ghost use Rattle.ui_machine.specs.State.References.{in_task, same};
ghost use Rattle.ui_machine.specs.State.Tasks.{Calling};
ghost use Rattle.native_peers.specs.Seen.{SameRelations};
ghost use Rattle.engine_world.specs.Counting.{Counts, nothing};
ghost use Rattle.ui_machine.specs.Steps.{question};
ghost use Rattle.engine_world.specs.EngineView.{config_of};
ghost use Rattle.engine_world.specs.Quiet.{IsQuiet};
ghost use Rattle.engine_stack.specs.TaskView.{call_of};
ghost use Rattle.engine_world.specs.Room.{SameRoom};
ghost use Rattle.engine_world.specs.View.{world_of};
ghost use Rattle.engine_dispatches.specs.CallPoints.{Concludes, TakesCall, calling_point, calling_view};
ghost use Rattle.engine_dispatches.specs.Following.{Breaks, Follows};
ghost use Rattle.engine_dispatches.specs.PoolView.{with_seen};
ghost use Rattle.engine_dispatches.specs.Safety.{ComesOfSafe, NoneUnheld};

use crate::boxes::ask;
use definitions::Definition;
use engine_stack::{DueCall, Task};
use engine_tasks::calls::{answer, question};
use engine_world::engine::Engine;
use engine_world::references::let_go_any;
use native_peers::Peers;
use std::alloc::AllocError;

// Asks the open peer of a due call, and gives the program its answer. If memory is refused the peer has replied, and no line reports it.
fn ask_for<P: Peers>(
    engine: &mut Engine,
    definition: &Definition,
    pool: &mut P,
    call: DueCall,
) -> Result<(), AllocError>
    requires safe { ComesOfSafe definition.now (vec_capacity engine.now.stack.tasks) (calling_point definition.now (P.seen pool.now) engine.now call) }
    requires none { NoneUnheld definition.now (calling_view definition.now engine.now call) }
    requires asked { is_asked (world_of engine.now.world) call.peer ≡ true }
    requires counted { Counts definition.now (λ o. in_task o (Calling (call_of call))) engine.now }
    ensures counted { OnOk result (Counts definition.now (λ o. same o call.object.0) engine.new) }
    ensures follows { OnOk result (Follows definition.now (P.relations pool.old)
        (calling_point definition.now (P.seen pool.old) engine.old call)
        (record { pool = P.seen pool.new; view = config_of definition.now engine.new })) }
    ensures breaks { OnErr result (Breaks definition.now (P.relations pool.old)
        (calling_point definition.now (P.seen pool.old) engine.old call)
        (with_seen (P.seen pool.new) (world_of engine.new.world).peers) (world_of engine.new.world).transcript) }
    ensures concludes { OnOk result (Concludes definition.now engine.old call (config_of definition.now engine.new)) }
    ensures quiet { OnErr result (IsQuiet (world_of engine.old.world) (world_of engine.new.world)) }
    ensures same { SameRelations (P.relations pool.old) (P.relations pool.new) }
    ensures room { SameRoom engine.old engine.new }
{
    let value = ask(pool, &call);
    answer(engine, definition, call, value)?;
    Ok(())
}

// Returns whether the next step asks a peer.
fn asks(engine: &Engine, definition: &Definition) -> bool
    requires counted { Counts definition.now nothing engine.now }
    ensures { result ≡ is_some (question definition.now (config_of definition.now engine.now)) }
{
    match engine.world.table.next_unheld() {
        Some(_) => false,
        None => question(engine).is_some(),
    }
}

/// Takes the first task off if it is a call of an open peer and nothing is to be finalised.
pub(crate) fn take_call(engine: &mut Engine, definition: &Definition) -> Option<DueCall>
    requires counted { Counts definition.now nothing engine.now }
    ensures taken { MatchOption result ((engine.new ≡ engine.old) × (question definition.now (config_of definition.now engine.old) ≡ None))
        (λ call. TakesCall definition.now engine.old call engine.new) }
    ensures room { SameRoom engine.old engine.new }
{
    if !asks(engine, definition) {
        return None;
    }
    let Some(task) = engine.stack.pop_task() else {
        unreachable!();
    };
    let Task::Calling(call) = task else {
        unreachable!();
    };
    Some(call)
}

/// Asks the open peer of a due call, gives the program its answer, and lets the object of the call go. No run of the machine from there may
/// be stuck.
///
/// # Errors
///
/// `AllocError` if memory is refused. The peer has replied then, and no line reports it.
pub(crate) fn answer_call<P: Peers>(
    engine: &mut Engine,
    definition: &Definition,
    pool: &mut P,
    call: DueCall,
) -> Result<(), AllocError>
    requires safe { ComesOfSafe definition.now (vec_capacity engine.now.stack.tasks) (calling_point definition.now (P.seen pool.now) engine.now call) }
    requires none { NoneUnheld definition.now (calling_view definition.now engine.now call) }
    requires asked { is_asked (world_of engine.now.world) call.peer ≡ true }
    requires counted { Counts definition.now (λ o. in_task o (Calling (call_of call))) engine.now }
    ensures counted { OnOk result (Counts definition.now nothing engine.new) }
    ensures follows { OnOk result (Follows definition.now (P.relations pool.old)
        (calling_point definition.now (P.seen pool.old) engine.old call)
        (record { pool = (P.seen pool.new); view = config_of definition.now engine.new })) }
    ensures breaks { OnErr result (Breaks definition.now (P.relations pool.old)
        (calling_point definition.now (P.seen pool.old) engine.old call)
        (with_seen (P.seen pool.new) (world_of engine.new.world).peers) (world_of engine.new.world).transcript) }
    ensures concludes { OnOk result (Concludes definition.now engine.old call (config_of definition.now engine.new)) }
    ensures quiet { OnErr result (IsQuiet (world_of engine.old.world) (world_of engine.new.world)) }
    ensures same { SameRelations (P.relations pool.old) (P.relations pool.new) }
    ensures room { SameRoom engine.old engine.new }
{
    let object = call.object;
    let Ok(()) = ask_for(engine, definition, pool, call) else {
        return Err(AllocError);
    };
    let_go_any(&mut engine.world.table, Some(object));
    Ok(())
}
