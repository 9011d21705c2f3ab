//! The calls of peers: the question to a peer that is open, and the conclusion from its answer. A peer that is closed is not called.

ghost use Rattle.std.specs.Prelude.{◌≡◌, List, None, Ok, Option, Some, IfOk, IfSome, false, option_map, string_bytes};
ghost use Rattle.ui_machine.specs.Definition as machine;
ghost use Rattle.ui_machine.specs.Definition.Types.{GType};
ghost use Rattle.ui_machine.specs.Instructions.Peers.{calling_on, left_with};
ghost use Rattle.ui_machine.specs.declared.arm.Arm.TheVariants as arms;
ghost use Rattle.ui_machine.specs.Outcome.{known};
ghost use Rattle.ui_machine.specs.State.Config.{is_asked};
ghost use Rattle.ui_machine.specs.State.Peers.{Reply};
ghost use Rattle.ui_machine.specs.State.References.{in_task, same};
ghost use Rattle.ui_machine.specs.State.Tasks.{Calling};
ghost use Rattle.ui_machine.specs.Steps.{asked_first, left};
ghost use Rattle.g_values.specs.View.{value_view};
ghost use Rattle.engine_world.specs.Counting.{Counts};
ghost use Rattle.engine_world.specs.EngineView.{config_of};
ghost use Rattle.engine_world.specs.Able.{Able, Leads, LeadsToLiving};
ghost use Rattle.engine_world.specs.SeatView.{HasKnownKinds};
ghost use Rattle.engine_world.specs.TaskView.{agenda_of};
ghost use Rattle.engine_stack.specs.TaskView.{call_of};
ghost use Rattle.engine_world.specs.View.{with_line, world_of};
ghost use Rattle.engine_tasks.specs.CallView.{answered, conclusion_view, method_called, named_view, question_view, reply_of, unanswered};
ghost use Rattle.engine_world.specs.Executions.{ExecutesHolding};

use definitions::Definition;
use engine_stack::{DueCall, Task};
use engine_world::engine::Engine;
use engine_world::lines::Line;
use engine_world::program_frames::pass_answer;
use engine_world::references::{let_go_values, never_full};
use g_values::{Value, zero_of};
use peer_shapes::MethodRef;
use std::alloc::AllocError;

/// A question to an open peer: a method of its shape, by number, with arguments.
#[derive(Clone, Copy)]
pub struct PeerQuestion<'a> {
    pub peer: usize,
    pub method: usize,
    pub args: &'a [Value],
}

/// The conclusion of a call: the line that reports it, and the value that is given to the program.
#[derive(Drop)]
pub struct Conclusion {
    line: String,
    value: Value,
}

/// Returns whether there is a peer with this number and it is open, so that it is asked.
pub fn is_asked(engine: &Engine, peer: usize) -> bool
    ensures { result ≡ is_asked (world_of engine.now.world) peer }
{
    match engine.world.seats.seat(peer) {
        Some(seat) => seat.is_open,
        None => false,
    }
}

/// Returns the question that the first task asks a peer, if it asks one.
pub fn question(engine: &Engine) -> Option<PeerQuestion<'_>>
    ensures { (d : machine.Definition) → option_map (question_view (world_of engine.now.world)) result
        ≡ asked_first (world_of engine.now.world) (agenda_of d engine.now) }
{
    let Some(task) = engine.stack.first() else {
        return None;
    };
    let Task::Calling(call) = task else {
        return None;
    };
    if !is_asked(engine, call.peer) {
        return None;
    }
    Some(PeerQuestion {
        peer: call.peer,
        method: call.method,
        args: call.args.as_slice(),
    })
}

// A method of a peer, with the peer's name.
#[derive(Clone, Copy)]
struct NamedMethod<'a> {
    peer: &'a str,
    method: MethodRef<'a>,
}

// Returns the method that a call asks for, if there are the peer and the method. Its kinds are known whatever the types are.
fn method_called<'a>(engine: &'a Engine, call: &DueCall) -> Option<NamedMethod<'a>>
    ensures named { known arms.Call (option_map named_view result) ≡ method_called (world_of engine.now.world) (call_of call.now) }
    ensures known { (types : List GType) → IfSome result (λ called. HasKnownKinds types called.method) }
{
    let Some(seat) = engine.world.seats.seat(call.peer) else {
        return None;
    };
    let Some(method) = engine.world.seats.method(call.peer, call.method) else {
        return None;
    };
    Some(NamedMethod {
        peer: seat.name,
        method,
    })
}

// Returns the conclusion of a call whose peer has answered, or has faulted if there is no answer. After a fault the program is given the
// zero value.
fn answered<'a>(
    engine: &'a Engine,
    definition: &Definition,
    call: &'a DueCall,
    answer: Option<Value>,
) -> Result<Conclusion, AllocError>
    requires able { Able (answered definition.now (world_of engine.now.world) (call_of call.now) (option_map value_view answer)) }
    ensures { IfOk result (λ c. answered definition.now (world_of engine.now.world) (call_of call.now) (option_map value_view answer) ≡ Ok (conclusion_view c)) }
{
    let Some(called) = method_called(engine, call) else {
        unreachable!()
    };
    let types = definition.types();
    match answer {
        Some(value) => {
            let told = Line::Call {
                peer: called.peer,
                method: called.method.name,
                args: call.args.as_slice(),
                answer: &value,
            };
            let line = told.text(engine.alloc, types)?;
            Ok(Conclusion { line, value })
        }
        None => {
            let told = Line::Fault {
                peer: called.peer,
                method: called.method.name,
                args: call.args.as_slice(),
            };
            let line = told.text(engine.alloc, types)?;
            let value = zero_of(types, called.method.result);
            Ok(Conclusion { line, value })
        }
    }
}

// Returns the conclusion of a call whose peer is closed. The program is given the zero value.
fn unanswered<'a>(
    engine: &'a Engine,
    definition: &Definition,
    call: &'a DueCall,
) -> Result<Conclusion, AllocError>
    requires able { Able (unanswered definition.now (world_of engine.now.world) (call_of call.now)) }
    ensures { IfOk result (λ c. unanswered definition.now (world_of engine.now.world) (call_of call.now) ≡ Ok (conclusion_view c)) }
{
    let Some(called) = method_called(engine, call) else {
        unreachable!()
    };
    let types = definition.types();
    let told = Line::Closed {
        peer: called.peer,
        method: called.method.name,
        args: call.args.as_slice(),
    };
    let line = told.text(engine.alloc, types)?;
    let value = zero_of(types, called.method.result);
    Ok(Conclusion { line, value })
}

// Ends a call: gives the value to the program, says the line, and lets the arguments go.
fn conclude(
    engine: &mut Engine,
    definition: &Definition,
    call: DueCall,
    conclusion: Conclusion,
) -> Result<(), AllocError>
    requires able { Able (left engine.now.counted (left_with (with_line (string_bytes conclusion.line) (world_of engine.now.world)) (agenda_of definition.now engine.now) call.to.0 (value_view conclusion.value))) }
    requires names { LeadsToLiving (left engine.now.counted (left_with (with_line (string_bytes conclusion.line) (world_of engine.now.world)) (agenda_of definition.now engine.now) call.to.0 (value_view conclusion.value))) }
    requires counted { Counts definition.now (λ o. in_task o (Calling (call_of call))) engine.now }
    ensures { ExecutesHolding result definition.now engine.old engine.new (λ o. same o call.object.0)
        (left engine.old.counted (left_with (with_line (string_bytes conclusion.line) (world_of engine.old.world)) (agenda_of definition.now engine.old) call.to.0 (value_view conclusion.value))) }
{
    // For the proof: what lives may be held once more.
    never_full(engine);
    let Conclusion { line, value } = conclusion;
    pass_answer(engine, definition, call.to, value);
    engine.world.say(line)?;
    let_go_values(&mut engine.world.table, call.args.as_slice());
    Ok(())
}

/// Carries on after a peer was asked, which has answered, or has faulted if there is no value. A line reports it, and the value is given to
/// the program that called. If the peer is closed it was not asked, and the program is given the zero value.
///
/// # Errors
///
/// `AllocError` if memory is refused.
pub fn answer(
    engine: &mut Engine,
    definition: &Definition,
    call: DueCall,
    answer: Option<Value>,
) -> Result<(), AllocError>
    requires able { Able (left engine.now.counted (calling_on definition.now (world_of engine.now.world) (call_of call) (agenda_of definition.now engine.now)
        (Some (reply_of (world_of engine.now.world) (call_of call) (option_map value_view answer))))) }
    requires names { LeadsToLiving (left engine.now.counted (calling_on definition.now (world_of engine.now.world) (call_of call) (agenda_of definition.now engine.now)
        (Some (reply_of (world_of engine.now.world) (call_of call) (option_map value_view answer))))) }
    requires counted { Counts definition.now (λ o. in_task o (Calling (call_of call))) engine.now }
    ensures { ExecutesHolding result definition.now engine.old engine.new (λ o. same o call.object.0)
        (left engine.old.counted (calling_on definition.now (world_of engine.old.world) (call_of call) (agenda_of definition.now engine.old) (Some (reply_of (world_of engine.old.world) (call_of call) (option_map value_view answer))))) }
{
    if !is_asked(engine, call.peer) {
        return pass_over(engine, definition, call);
    }
    let conclusion = answered(engine, definition, &call, answer)?;
    conclude(engine, definition, call, conclusion)
}

/// Ends a call whose peer was not asked, since it is closed. A line says so, and the program is given the zero value.
///
/// # Errors
///
/// `AllocError` if memory is refused.
pub fn pass_over(
    engine: &mut Engine,
    definition: &Definition,
    call: DueCall,
) -> Result<(), AllocError>
    requires able { Able (left engine.now.counted (calling_on definition.now (world_of engine.now.world) (call_of call) (agenda_of definition.now engine.now) None)) }
    requires names { LeadsToLiving (left engine.now.counted (calling_on definition.now (world_of engine.now.world) (call_of call) (agenda_of definition.now engine.now) None)) }
    requires counted { Counts definition.now (λ o. in_task o (Calling (call_of call))) engine.now }
    ensures executes { ExecutesHolding result definition.now engine.old engine.new (λ o. same o call.object.0)
        (left engine.old.counted (calling_on definition.now (world_of engine.old.world) (call_of call) (agenda_of definition.now engine.old) None)) }
    ensures closed { is_asked (world_of engine.old.world) call.peer ≡ false → (reply : Option Reply) → Leads result
        (left engine.old.counted (calling_on definition.now (world_of engine.old.world) (call_of call) (agenda_of definition.now engine.old) reply))
        (config_of definition.now engine.new) }
{
    let conclusion = unanswered(engine, definition, &call)?;
    conclude(engine, definition, call, conclusion)
}
