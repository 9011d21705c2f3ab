//! `idle`, `timeout` and `remove`: a program attaches or removes sources of the main context (GLib manual, The Main Event Loop).

ghost use Rattle.std.specs.Prelude.{◌≡◌};
ghost use Rattle.ui_machine.specs.Instructions.Sources.{attaching, removing, with_source};
ghost use Rattle.ui_machine.specs.State.Config.{World};
ghost use Rattle.instance_tables.specs.Store.{id_of};
ghost use Rattle.engine_world.specs.Able.{Able};
ghost use Rattle.engine_links.specs.Linked.{LinksProgram};
ghost use Rattle.engine_world.specs.SourceView.{with_new_source};
ghost use Rattle.engine_world.specs.FirstPrograms.{IsProgram};
ghost use Rattle.engine_world.specs.Counting.{Counts, nothing};
ghost use Rattle.engine_instructions.specs.AttachView.{attach_of};
ghost use Rattle.engine_world.specs.Executions.{Executes};
ghost use Rattle.engine_instructions.specs.InProgram.{in_program};

use crate::operands::{data_in, program_named};
use crate::registers::{write_null_and_say_limit, write_register};
use bytecode::Register;
use definitions::Definition;
use engine_links::Link;
use engine_world::engine::Engine;
use engine_world::references::never_full;
use engine_world::sources::{NewSource, attach_source, remove_sources};
use g_values::Value;
use std::alloc::AllocError;
use ui_machine::{ObjectId, ProgramId};

/// The operands of `idle` and `timeout` beside the register that they write. An idle has no interval.
#[derive(Clone, Copy, Debug)]
pub(crate) struct Attach<'a> {
    /// The instruction's word, which the line of the limit says.
    pub(crate) word: &'a str,
    pub(crate) program: &'a str,
    /// The meaning of the program's name.
    pub(crate) link: Link,
    pub(crate) priority: i32,
    pub(crate) interval: Option<u32>,
    /// The register that names the data object.
    pub(crate) with: Option<Register>,
}

impl Attach<'_> {
    // Returns the source that the instruction asks for, which runs a program and has this data.
    fn source(self, program: ProgramId, arg: Option<ObjectId>) -> NewSource
        ensures attached { (w : World) → with_new_source w result ≡ with_source w (attach_of self.entry) program (id_of arg) }
        ensures arg { result.arg ≡ arg }
    {
        NewSource {
            program,
            priority: self.priority,
            interval: self.interval,
            arg,
        }
    }
}

/// Attaches a source, unless the limit of sources is reached, which a line says. Writes to a register whether it was attached.
pub(crate) fn attach_from_program(
    engine: &mut Engine,
    definition: &Definition,
    to: Register,
    attach: Attach<'_>,
) -> Result<(), AllocError>
    requires first { IsProgram engine.now }
    requires link { LinksProgram definition.now attach.program.now attach.link }
    requires able { Able (in_program definition.now engine.now (λ w f. attaching definition.now w f to.0 (attach_of attach))) }
    requires counted { Counts definition.now nothing engine.now }
    ensures { Executes result definition.now engine.old engine.new
        (in_program definition.now engine.old (λ w f. attaching definition.now w f to.0 (attach_of attach.entry))) }
{
    let program = program_named(definition, attach.program, attach.link);
    let arg = data_in(engine, attach.with);
    let source = attach.source(program, arg);
    // For the proof: what lives may be held once more.
    never_full(engine);
    if attach_source(engine, source)? {
        write_register(engine, definition, to, Some(Value::Bool(true)));
        return Ok(());
    }
    write_null_and_say_limit(engine, definition, to, Value::Bool(false), attach.word)
}

/// Removes each source of a program.
pub(crate) fn remove_from_program(
    engine: &mut Engine,
    definition: &Definition,
    program: &str,
    link: Link,
)
    requires first { IsProgram engine.now }
    requires link { LinksProgram definition.now program.now link }
    requires able { Able (in_program definition.now engine.now (λ w f. removing definition.now w f program.now)) }
    requires counted { Counts definition.now nothing engine.now }
    ensures { Executes (Ok result) definition.now engine.old engine.new
        (in_program definition.now engine.old (λ w f. removing definition.now w f program.now)) }
{
    let number = program_named(definition, program, link);
    remove_sources(engine, number);
}
