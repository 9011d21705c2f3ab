//! The turns of emissions: the program that each runs, and the values that the program is given (GObject manual, Closures:
//! `g_cclosure_new_swap`).

ghost use Rattle.std.specs.Prelude.{◌≡◌, ◌++◌, [], map, Some, OnOk};
ghost use Rattle.ui_machine.specs.State.Tasks as config;
ghost use Rattle.g_values.specs.View.{value_view};
ghost use Rattle.bytecode.specs.Computing.{registers_of};
ghost use Rattle.instance_tables.specs.Store.{id_of};
ghost use Rattle.signal_core.specs.declared.turn.Turn.TheVariants as turns;
ghost use Rattle.engine_tasks.specs.TurnView.{RunsProgram, given_around, given_by, program_of_turn, value_of};

use engine_world::given::object_value;
use g_values::Value;
use signal_core::Turn;
use std::alloc::AllocError;
use ui_machine::{ObjectId, ProgramId};

/// A program that a turn runs, and the objects that it is given beside the arguments.
#[derive(Clone, Copy, Debug)]
pub(crate) struct Invocation {
    pub(crate) program: ProgramId,
    /// The object that comes before the arguments.
    pub(crate) before: Option<ObjectId>,
    /// The object that comes after the arguments.
    pub(crate) behind: Option<ObjectId>,
}

// Adds a register with a copy of each of these values.
fn add_copies(registers: &mut Vec<Option<Value>>, values: &[Value]) -> Result<(), AllocError>
    ensures { OnOk result (registers_of registers.new.items ≡ registers_of registers.old.items ++ map (λ v. Some v) (map value_view values.now)) }
{
    for value in values {
        registers.push(Some(value.copied()?))?;
    }
    Ok(())
}

// Adds a register with an object, if there is one.
fn add_object(
    registers: &mut Vec<Option<Value>>,
    object: Option<ObjectId>,
) -> Result<(), AllocError>
    ensures { OnOk result (registers_of registers.new.items ≡ registers_of registers.old.items ++ map (λ v. Some v) (value_of (id_of object))) }
{
    let Some(object) = object else {
        return Ok(());
    };
    registers.push(Some(object_value(object)))?;
    Ok(())
}

impl Invocation {
    // Creates the invocation of a handler: with `swapped` the data comes first and the object last.
    fn of_handler(
        program: ProgramId,
        swapped: bool,
        arg: Option<ObjectId>,
        instance: ObjectId,
    ) -> Self
        ensures program { result.program ≡ program }
        ensures given { (e : config.Emission) → e.object ≡ instance.0 → given_around result e.args ≡ given_by e (turns.Handler program swapped arg) }
    {
        if swapped {
            return Invocation {
                program,
                before: arg,
                behind: Some(instance),
            };
        }
        Invocation {
            program,
            before: Some(instance),
            behind: arg,
        }
    }

    /// Creates the invocation for a turn in an emission by an object.
    pub(crate) fn new(turn: Turn, instance: ObjectId) -> Self
        requires runs { RunsProgram turn }
        ensures program { result.program ≡ program_of_turn turn }
        ensures given { (e : config.Emission) → e.object ≡ instance.0 → given_around result e.args ≡ given_by e turn }
    {
        match turn {
            Turn::Class(program) => Invocation {
                program,
                before: Some(instance),
                behind: None,
            },
            Turn::Handler {
                program,
                swapped,
                arg,
            } => Self::of_handler(program, swapped, arg, instance),
            Turn::Transfers => unreachable!(),
        }
    }

    /// Gives the program its values, in registers that have to be empty.
    pub(crate) fn give(
        &self,
        registers: &mut Vec<Option<Value>>,
        args: &[Value],
    ) -> Result<(), AllocError>
        requires none { registers.now.items ≡ [] }
        ensures given { OnOk result (registers_of registers.new.items ≡ map (λ v. Some v) (given_around self.now (map value_view args.now))) }
    {
        add_object(registers, self.before)?;
        add_copies(registers, args)?;
        add_object(registers, self.behind)?;
        Ok(())
    }
}
