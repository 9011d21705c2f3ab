//! The operands of instructions: objects that registers name, and programs by their names.

ghost use Rattle.std.specs.Prelude.{◌≡◌, Ok, Some, option_map};
ghost use Rattle.ui_machine.specs.Definition.Lookups.{program_of};
ghost use Rattle.ui_machine.specs.Instructions.Registers.{data_in, operand_in};
ghost use Rattle.ui_machine.specs.Outcome.{known};
ghost use Rattle.ui_machine.specs.declared.arm.Arm.TheVariants as arms;
ghost use Rattle.engine_world.specs.FirstPrograms.{IsProgram, first_frame, rest_of};
ghost use Rattle.bytecode.specs.View.{number_of};
ghost use Rattle.instance_tables.specs.Store.{id_of};
ghost use Rattle.engine_world.specs.View.{world_of};
ghost use Rattle.engine_world.specs.Able.{Able};
ghost use Rattle.engine_links.specs.Linked.{LinksProgram};

use bytecode::Register;
use definitions::Definition;
use engine_links::Link;
use engine_world::engine::Engine;
use engine_world::program_frames::first_registers;
use frames::identity_at;
use ui_machine::{ObjectId, ProgramId};

/// Returns the living object that a register names.
pub(crate) fn object_in(engine: &Engine, from: Register) -> ObjectId
    requires first { IsProgram engine.now }
    requires able { Able (operand_in (world_of engine.now.world) (first_frame engine.now) from.0) }
    ensures { operand_in (world_of engine.now.world) (first_frame engine.now) from.0 ≡ Ok result.0 }
{
    identity_at(first_registers(engine), from)
}

/// Returns the data object that a register names, if a register is given.
#[tactic(auto, unfolding(ui_machine::specs::Instructions::Registers::data_in))]
pub(crate) fn data_in(engine: &Engine, with: Option<Register>) -> Option<ObjectId>
    requires first { IsProgram engine.now }
    requires able { Able (data_in (world_of engine.now.world) (first_frame engine.now) (option_map number_of with)) }
    ensures { data_in (world_of engine.now.world) (first_frame engine.now) (option_map number_of with) ≡ Ok (id_of result) }
{
    Some(object_in(engine, with?))
}

/// Returns the number of the program of a name, which the instruction's link says.
pub(crate) fn program_named(definition: &Definition, name: &str, link: Link) -> ProgramId
    requires able { Able (known arms.Code (program_of definition.now name.now)) }
    requires link { LinksProgram definition.now name.now link }
    ensures { program_of definition.now name.now ≡ Some result }
{
    let Some(number) = link.program() else {
        unreachable!()
    };
    number
}
