//! `stop`: a program stops the emission that runs it (GObject manual, Signals: `g_signal_stop_emission`).

ghost use Rattle.std.specs.Prelude.{Ok};
ghost use Rattle.ui_machine.specs.Definition.Programs as words;
ghost use Rattle.engine_world.specs.FirstPrograms.{IsProgram};
ghost use Rattle.engine_world.specs.Counting.{Counts, nothing};
ghost use Rattle.engine_world.specs.Able.{Able};
ghost use Rattle.engine_world.specs.Executions.{Executes};
ghost use Rattle.engine_instructions.specs.InProgram.{executed};

use definitions::Definition;
use engine_world::engine::Engine;

/// Stops the emission that runs the program, and lets the program go on.
pub(crate) fn stop_from_program(engine: &mut Engine, definition: &Definition)
    requires first { IsProgram engine.now }
    requires able { Able (executed definition.now engine.now words.stop) }
    requires counted { Counts definition.now nothing engine.now }
    ensures { Executes (Ok result) definition.now engine.old engine.new (executed definition.now engine.old words.stop) }
{
    engine.stack.stop_below(engine.alloc);
}
