//! The room that the runs of a definition take. `start` reserves it, so that no program, emission or construction asks for memory to begin.

ghost use Rattle.std.specs.Prelude.{◌≡◌, ◌+◌, ◌<◌, ◌^◌, length, min, ℕ};
ghost use Rattle.ui_engine.specs.Widths.{HoldsParams, HoldsRegisters, HoldsSignals, HoldsSteps};

use definitions::Definition;
use engine_world::places::entry_at;
use engine_world::reserves::Room;
use type_tree::TypeId;
use ui_machine::{Place, ProgramId, SignalId};

// Returns the greatest number of registers of a program.
fn most_registers(definition: &Definition) -> usize
    ensures { HoldsRegisters definition.now result }
{
    let mut most = 0;
    'programs: for number in 0..ProgramId::MAX {
        let Some(program) = definition.program(number) else {
            return most;
        };
        most = most.max(program.registers);
    }
    most
}

// Returns the greatest number of arguments of a signal of a class.
fn most_params_of(definition: &Definition, class: TypeId) -> usize
    ensures { HoldsParams definition.now class result }
{
    // For the proof: how many signals a class has at most.
    let _count = definition.signal_count(class);
    let mut most = 0;
    let mut number: SignalId = 0;
    loop {
        let Some(signal) = definition.signal(class, number) else {
            return most;
        };
        most = most.max(signal.params.len());
        number += 1;
    }
}

// Returns the greatest number of arguments of any signal.
fn most_params(definition: &Definition) -> usize
    ensures { HoldsSignals definition.now result }
{
    let mut most = 0;
    'classes: for class in 0..definition.class_count() {
        most = most.max(most_params_of(definition, TypeId::new(class as u16)));
    }
    most
}

// Returns how many steps the construction of what is at a place has at most.
fn steps_at(definition: &Definition, place: Place) -> usize
    ensures { HoldsSteps definition.now place.0 result }
{
    let Some(entry) = entry_at(definition, place) else {
        return 0;
    };
    // Each class from the root down names at most one program that runs once an object is constructed.
    let programs = definition.types().depth(entry.class);
    definition.slots(entry.class) + entry.given.len() + programs + 1
}

// Returns how many steps any construction has at most.
fn most_steps(definition: &Definition) -> usize
    ensures { (place : ℕ) → HoldsSteps definition.now place result }
{
    let mut most = 0;
    'places: for place in 0..definition.place_count() {
        most = most.max(steps_at(definition, Place(place as u16)));
    }
    most
}

// Returns how many programs there are.
fn program_count(definition: &Definition) -> usize
    ensures count { result ≡ length definition.now.programs }
    ensures few { result < 2 ^ 16 }
{
    // For the proof: how many programs there are at most.
    let _types = definition.types();
    let mut number: ProgramId = 0;
    loop {
        if definition.program(number).is_none() {
            return usize::from(number);
        }
        number += 1;
    }
}

/// Returns the room for runs with `depth` frames at a time, each of which is a program, an emission or a construction. Between two frames
/// is one task at most, and a step puts two tasks where one was. A construction is of the build or of a program, which runs in one frame at
/// a time.
pub(crate) fn room_for(definition: &Definition, depth: u32) -> Room
    ensures depth { result.depth ≡ depth }
    ensures constructions { result.constructions ≡ min depth (length definition.now.programs + 1) }
    ensures steps { (place : ℕ) → HoldsSteps definition.now place result.steps }
    ensures registers { HoldsRegisters definition.now result.registers }
    ensures args { HoldsSignals definition.now result.args }
{
    Room {
        depth,
        registers: most_registers(definition),
        constructions: (depth as usize).min(program_count(definition) + 1),
        steps: most_steps(definition),
        args: most_params(definition),
    }
}
